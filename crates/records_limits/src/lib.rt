// Which records a call refuses: a kind that it does not read, a nonzero unused field, an index past a limit, or a cell beyond the file's sizes.
#![tactic(auto)]

ghost use Rattle.std.specs.Prelude.{◌≡◌, ℕ, Bool, not, ◌||◌, eqb, ◌<◌};
ghost use Rattle.records.specs.format.Scan.{any};
ghost use Rattle.records.specs.format.Kinds.{kind_at, kinds_of, value_holds};
ghost use Rattle.records.specs.format.File.{count, kind_of, padding_of, bits_of, out_of, bad_record, beyond};

use records::{Kind, Shape, Sizes};
use records_file::{bits_at, column_at, count_at, kind_of, padding_at, row_at};
use records_kinds::{holds, kind_at};

// Record i lies outside what a kind has.
fn out_of(k: Kind, s: &[u8], i: usize) -> bool
    requires { i < count s.now }
    ensures { result ≡ out_of k s.now i }
{
    let row = k.row;
    if !holds(row, row_at(s, i)) {
        return true;
    }
    let column = k.column;
    if !holds(column, column_at(s, i)) {
        return true;
    }
    let count = k.count;
    !holds(count, count_at(s, i))
}

// Record i lies outside what its kind has, which is k, or has a nonzero unused byte, or a value that the kind does not hold.
fn bad_record(k: Kind, s: &[u8], i: usize) -> bool
    requires { i < count s.now }
    ensures { result ≡ out_of k s.now i || not (eqb (padding_of s.now i) 0) || not (value_holds k.value (bits_of s.now i)) }
{
    if out_of(k, s, i) {
        return true;
    }
    if padding_at(s, i) != 0 {
        return true;
    }
    let value = k.value;
    !records_kinds::value_holds(value, bits_at(s, i))
}

// Some record fails a test of itself and of what its kind has. Records rise by kind, so what the table says of the last one's kind is kept, and it is asked again where the kind changes.
fn any_fails<F: Fn(Kind, usize) -> bool>(file: Shape, z: Sizes, s: &[u8], fails: F) -> bool
    requires { (k : Kind) (i : ℕ) → i < count s.now → F.pre fails k i }
    ensures { (test : Kind → ℕ → Bool) → ((k : Kind) (i : ℕ) (b : Bool) → F.post fails k i b → b ≡ test k i) → result ≡ any (count s.now) (λ i. test (kind_at (kinds_of file z) (kind_of s.now i)) i) }
{
    let mut last: u8 = 0;
    let mut k = kind_at(file, z, last);
    for i in 0..s.len() / 16 {
        let kind = kind_of(s, i);
        if kind != last {
            last = kind;
            k = kind_at(file, z, kind);
        }
        if fails(k, i) {
            return true;
        }
    }
    false
}

// Some record is bad: of a kind that the call does not read, with a nonzero unused field, or past a limit; the limits are sizes.
pub fn any_bad(file: Shape, limit: Sizes, s: &[u8]) -> bool
    ensures { result ≡ any (count s.now) (bad_record (kinds_of file limit) s.now) }
{
    any_fails(file, limit, s, |k, i| bad_record(k, s, i))
}

// Some record names a cell that the sizes do not leave its kind.
pub fn any_beyond(file: Shape, z: Sizes, s: &[u8]) -> bool
    ensures { result ≡ any (count s.now) (beyond (kinds_of file z) s.now) }
{
    any_fails(file, z, s, |k, i| out_of(k, s, i))
}
