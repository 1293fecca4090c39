// Numbers in bytes, the lowest byte first: read from a slice, and put into one.
#![tactic(auto)]

ghost use Rattle.std.specs.Prelude.{◌≡◌, ◌+◌, ◌≤◌, ◌<◌, length, [], ◌∷◌};
ghost use Rattle.std.proofs.lemmas.List.Edits.{sets};
ghost use Rattle.records.specs.format.Bytes.{word, long, bytes_of};

// The four bytes from a place on.
pub fn word_at(s: &[u8], at: usize) -> u64
    requires { at + 4 ≤ length s.now }
    ensures { (result ≡ word s.now at) × (result < 4294967296) }
{
    u64::from(u32::from_le_bytes([s[at], s[at + 1], s[at + 2], s[at + 3]]))
}

// The eight bytes from a place on.
pub fn long_at(s: &[u8], at: usize) -> u64
    requires { at + 8 ≤ length s.now }
    ensures { result ≡ long s.now at }
{
    let mut bytes = [0u8; 8];
    bytes.copy_from_slice(&s[at..at + 8]);
    u64::from_le_bytes(bytes)
}

// Eight bytes, put from a place on.
pub fn put8(a: &mut [u8], at: usize, b0: u8, b1: u8, b2: u8, b3: u8, b4: u8, b5: u8, b6: u8, b7: u8)
    requires { at + 8 ≤ length a.old }
    ensures { a.new ≡ sets a.old at (b0 ∷ b1 ∷ b2 ∷ b3 ∷ b4 ∷ b5 ∷ b6 ∷ b7 ∷ []) }
{
    a[at..at + 8].copy_from_slice(&[b0, b1, b2, b3, b4, b5, b6, b7]);
}

// The eight bytes of w, put from a place on.
pub fn put_long(a: &mut [u8], at: usize, w: u64)
    requires { at + 8 ≤ length a.old }
    ensures { a.new ≡ sets a.old at (bytes_of 8 w) }
{
    a[at..at + 8].copy_from_slice(&w.to_le_bytes());
}
