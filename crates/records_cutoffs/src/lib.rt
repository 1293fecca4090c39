// A lab's table of cutoffs: whether it is accepted, and the nine numbers that it holds.
#![tactic(auto)]

ghost use Rattle.std.specs.Prelude.{◌≡◌, ◌<◌, length};
ghost use Rattle.records.specs.format.File.{count};
ghost use Rattle.records.specs.readers.CutoffTable.{floor_of, bad_cutoff, bad_table, cutoffs_in};

use arithmetic_cutoffs::Cutoffs;
use records_file::value_at;

// What the value of row i has to exceed: 2 for the cap, the last, and 0 for the others.
fn floor_of(i: usize) -> f64
    ensures { result ≡ floor_of i }
{
    if i == 8 { 2.0 } else { 0.0 }
}

// Record i is not row i of a table, with a finite value above its floor.
fn bad_cutoff(table: &[u8], i: usize) -> bool
    requires { i < count table.now }
    ensures { result ≡ bad_cutoff table.now i }
{
    if records_file::kind_of(table, i) != 20 {
        return true;
    }
    if records_file::row_at(table, i) != i {
        return true;
    }
    if records_file::column_at(table, i) != 0 {
        return true;
    }
    if records_file::padding_at(table, i) != 0 {
        return true;
    }
    if records_file::count_at(table, i) != 0 {
        return true;
    }
    let value = value_at(table, i);
    if !arithmetic::plain::is_finite(value) {
        return true;
    }
    !(floor_of(i) < value)
}

// The table is not 144 bytes long, or one of its nine records is bad: refusal 14.
pub fn bad_table(table: &[u8]) -> bool
    ensures { result ≡ bad_table table.now }
{
    table.len() != 144 || (0..9).any(|i| bad_cutoff(table, i))
}

// The nine numbers of a table of that length.
pub fn cutoffs_in(table: &[u8]) -> Cutoffs
    requires { length table.now ≡ 144 }
    ensures { result ≡ cutoffs_in table.now }
{
    Cutoffs {
        moment: value_at(table, 0),
        leading: value_at(table, 1),
        divisor: value_at(table, 2),
        excess: value_at(table, 3),
        near: value_at(table, 4),
        eigenvalue: value_at(table, 5),
        ridge: value_at(table, 6),
        rotation: value_at(table, 7),
        cap: value_at(table, 8),
    }
}
