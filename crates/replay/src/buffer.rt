// Bytes as they come to be: each part is put behind what is held. What would stand past the room is left out, so that no part asks for room.
ghost use Rattle.std.specs.Prelude.{◌≤◌};

pub const NEWLINE: u8 = b'\n';

pub const BAR: u8 = b'|';

#[derive(Drop)]
pub struct Buffer<const ROOM: usize> {
    bytes: [u8; ROOM],
    held: usize,
    ghost within: { held ≤ ROOM },
}

impl<const ROOM: usize> Buffer<ROOM> {
    pub fn new() -> Self {
        Buffer {
            bytes: [0; ROOM],
            held: 0,
        }
    }

    pub fn text(&self) -> &[u8] {
        &self.bytes[..self.held]
    }

    pub fn is_empty(&self) -> bool {
        self.held == 0
    }

    pub fn is_full(&self) -> bool {
        self.held == ROOM
    }

    pub fn clear(&mut self) {
        self.held = 0;
    }

    pub fn put_byte(&mut self, b: u8) {
        if self.held < ROOM {
            self.bytes[self.held] = b;
            self.held += 1;
        }
    }

    pub fn put(&mut self, bytes: &[u8]) {
        for b in bytes {
            self.put_byte(*b);
        }
    }

    // A text, with a bar for each newline, so that an answer of several lines stands in one.
    pub fn put_barred(&mut self, text: &[u8]) {
        for b in text {
            self.put_byte(if *b == NEWLINE { BAR } else { *b });
        }
    }

    // The hexadecimal digits of bytes, two for each.
    pub fn put_digits(&mut self, bytes: &[u8]) {
        for b in bytes {
            let mut digits = [0u8; 16];
            let n = io::hex(u64::from(*b), 2, &mut digits);
            self.put(&digits[..n]);
        }
    }

    // A number in decimal digits.
    pub fn put_number(&mut self, number: u32) {
        let mut digits = [0u8; 20];
        let n = io::decimal(u64::from(number), &mut digits);
        self.put(&digits[..n]);
    }
}
