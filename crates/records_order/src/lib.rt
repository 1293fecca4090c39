// Whether the records of a file rise: by kind, then by the count where it numbers a matrix, then row and column. One pass, with one comparison of whole numbers for a pair.
#![tactic(auto)]

ghost use Rattle.std.specs.Prelude.{◌≡◌, ◌<◌};
ghost use Rattle.records.specs.format.File.{count, kind_of};
ghost use Rattle.records.specs.format.Order.{numbers_matrix, matrix_of, falls};
ghost use Rattle.records_order.specs.joints.Keys.{key_of};

use records_file::{column_at, count_at, kind_of, row_at};

// A kind's count numbers a matrix.
fn numbers_matrix(kind: usize) -> bool
    ensures { result ≡ numbers_matrix kind }
{
    (kind == 31) | (kind == 13) | (kind == 17)
}

// The number of record i's matrix, 0 where its count numbers none.
fn matrix_at(s: &[u8], i: usize) -> usize
    requires { i < count s.now }
    ensures { (result ≡ matrix_of s.now i) × (result < 4294967296) }
{
    if numbers_matrix(records_file::index(kind_of(s, i))) {
        return count_at(s, i);
    }
    0
}

// A number as a key's part: a cast, since the library has no `From` between usize and u64.
fn key_part(x: usize) -> u64
    ensures { result ≡ x }
{
    x as u64
}

// Record i's key: records stand in the order of their keys.
pub fn key_at(s: &[u8], i: usize) -> u64
    requires { i < count s.now }
    ensures { (result ≡ key_of s.now i) × (result < 72057594037927936) }
{
    let kind = key_part(records_file::index(kind_of(s, i)));
    let matrix = key_part(matrix_at(s, i));
    let row = key_part(row_at(s, i));
    let column = key_part(column_at(s, i));
    kind * 281474976710656 + (matrix * 65536 + (row * 256 + column))
}

// Some neighbours do not rise. `least` is one more than the last record's key.
pub fn falls(s: &[u8]) -> bool
    ensures { result ≡ falls s.now }
{
    let mut least: u64 = 0;
    for i in 0..s.len() / 16 {
        let key = key_at(s, i);
        if key < least {
            return true;
        }
        least = key + 1;
    }
    false
}
