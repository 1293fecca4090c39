// The fields of the records of a file.
#![tactic(auto)]

ghost use Rattle.std.specs.Prelude.{◌≡◌, ◌<◌};
ghost use Rattle.records.specs.format.Scan.{any};
ghost use Rattle.records.specs.format.File.{count, kind_of, row_of, column_of, padding_of, count_of, bits_of, first_value_of, value_of, not_finite};

// A byte as an index.
pub fn index(x: u8) -> usize
    ensures { (result ≡ x) × (result < 256) }
{
    usize::from(x)
}

// The fields of record i.
pub fn kind_of(s: &[u8], i: usize) -> u8
    requires { i < count s.now }
    ensures { result ≡ kind_of s.now i }
{
    let at = 16 * i;
    s[at]
}

pub fn row_at(s: &[u8], i: usize) -> usize
    requires { i < count s.now }
    ensures { (result ≡ row_of s.now i) × (result < 256) }
{
    let at = 16 * i + 1;
    index(s[at])
}

pub fn column_at(s: &[u8], i: usize) -> usize
    requires { i < count s.now }
    ensures { (result ≡ column_of s.now i) × (result < 256) }
{
    let at = 16 * i + 2;
    index(s[at])
}

pub fn padding_at(s: &[u8], i: usize) -> usize
    requires { i < count s.now }
    ensures { (result ≡ padding_of s.now i) × (result < 256) }
{
    let at = 16 * i + 3;
    index(s[at])
}

pub fn count_at(s: &[u8], i: usize) -> usize
    requires { i < count s.now }
    ensures { (result ≡ count_of s.now i) × (result < 4294967296) }
{
    let at = 16 * i + 4;
    // a cast: the library has no `From` between u64 and usize
    records_little_endian::word_at(s, at) as usize
}

pub fn bits_at(s: &[u8], i: usize) -> u64
    requires { i < count s.now }
    ensures { result ≡ bits_of s.now i }
{
    let at = 16 * i + 8;
    records_little_endian::long_at(s, at)
}

// The first of the eight value bytes.
pub fn first_value_at(s: &[u8], i: usize) -> usize
    requires { i < count s.now }
    ensures { (result ≡ first_value_of s.now i) × (result < 256) }
{
    let at = 16 * i + 8;
    index(s[at])
}

pub fn value_at(s: &[u8], i: usize) -> f64
    requires { i < count s.now }
    ensures { result ≡ value_of s.now i }
{
    arithmetic::plain::of_bits(bits_at(s, i))
}

// Record i's value is not finite.
fn not_finite(s: &[u8], i: usize) -> bool
    requires { i < count s.now }
    ensures { result ≡ not_finite s.now i }
{
    !arithmetic::plain::is_finite(value_at(s, i))
}

pub fn any_not_finite(s: &[u8]) -> bool
    ensures { result ≡ any (count s.now) (not_finite s.now) }
{
    (0..s.len() / 16).any(|i| not_finite(s, i))
}
