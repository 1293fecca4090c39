// Bytes as two hexadecimal digits and words of 64 bits as sixteen, for the programs that read and print tables.
// These programs write by `io`, which reaches no C function but `read` and `write`; std's printing would trust those that tell of an error too.
#![tactic(auto)]

ghost use Rattle.std.specs.Prelude.{◌≡◌, ◌≢◌, ◌+◌, ◌<◌, ◌≤◌, ◌∷◌, ◌++◌, length, IfSome, IfNone, All};
ghost use Rattle.io.specs.Counts.{IsPrefixLen};

// The value of a hexadecimal digit; 0 for any other byte.
pub fn digit(b: u8) -> u64
    ensures { result < 16 }
{
    match b {
        b'0'..=b'9' => u64::from(b - b'0'),
        b'a'..=b'f' => u64::from(b - b'a') + 10,
        _ => 0,
    }
}

// The word of sixteen digits from a place on.
pub fn word_at(text: &[u8], at: usize) -> u64
    requires { at + 16 ≤ length text.now }
{
    let mut word = 0;
    for b in &text[at..at + 16] {
        word = (word << 4) | digit(*b);
    }
    word
}

// The byte of two digits.
fn byte_of(high: u8, low: u8) -> u8 {
    (digit(high) * 16 + digit(low)) as u8
}

// Fills a file from its start with the bytes that digits spell, as far as there is room; how many bytes these are.
pub fn spell(digits: &[u8], file: &mut [u8]) -> usize
    ensures { IsPrefixLen result file.new }
{
    let (pairs, _) = digits.as_chunks::<2>();
    for (b, [high, low]) in file.iter_mut().zip(pairs) {
        *b = byte_of(*high, *low);
    }
    pairs.len().min(file.len())
}

// Sixteen digits, the leading one first.
pub fn print_word(word: u64) {
    io::print_hex(1, word, 16);
}

// The part of a text before the first byte of a kind, and the part behind it, if there is one.
pub fn split_once(text: &[u8], byte: u8) -> Option<(&[u8], &[u8])>
    ensures parts { IfSome result (λ parts. text.now ≡ parts.0.now ++ byte ∷ parts.1.now) }
    ensures first { IfSome result (λ parts. All (λ b. b ≢ byte) parts.0.now) }
    ensures none { IfNone result (All (λ b. b ≢ byte) text.now) }
{
    let at = text.iter().position(|b| *b == byte)?;
    Some((&text[..at], &text[at + 1..]))
}
