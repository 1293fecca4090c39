// The files of a line: hexadecimal digits with commas between.
use table_bits_text::split_once;

// The most characters that the files of a line have.
const DIGITS: usize = 32768;

// So many bytes has a file at most: two digits spell a byte.
pub const FILE: usize = 16384;

pub const COMMA: u8 = b',';

// The part of a text before the first byte of a kind, and the part behind it: all of the text and nothing, where it has none.
pub fn first_and_rest(text: &[u8], byte: u8) -> (&[u8], &[u8]) {
    match split_once(text, byte) {
        Some(parts) => parts,
        None => (text, &[]),
    }
}

// Whether a part of a line is longer than is held, or has another number of commas between its files than its call asks for.
pub fn unfit(digits: &[u8], commas: usize) -> bool {
    DIGITS < digits.len() || digits.iter().filter(|b| **b == COMMA).count() != commas
}
