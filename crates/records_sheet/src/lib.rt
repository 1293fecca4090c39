// A slot for each cell that a file's sizes leave its kinds: the cells that a file names twice, those that it names and those that it misses, and the number in each. A file is any of the four (`Shape`).
#![tactic(auto)]

ghost use Rattle.std.specs.Prelude.{◌≡◌, false, ◌+◌, ◌≤◌, ◌<◌, length, replicate};
ghost use Rattle.arithmetic.specs.Numbers.{plus_zero};
ghost use Rattle.records.specs.format.Scan.{any};
ghost use Rattle.records.specs.format.Kinds.{width, index_of, kind_at, kinds_of, kind_numbers};
ghost use Rattle.records.specs.format.Cells.{slots, slot_count, offset};
ghost use Rattle.records.specs.format.File.{count, kind_of, row_of, column_of, count_of, out_of, beyond, again};
ghost use Rattle.records_sheet.specs.joints.Sheet.{Small, first_slots, slot_of, flags_after, sheet_after, gap, missing_in};

use records::{Kind, Shape, Sizes};
use records_file::{column_at, count_at, kind_of, row_at, value_at};
use records_kinds::{index_of, kind_at, width};

// How many cells a kind has.
fn slots_of(k: Kind) -> usize
    requires { (width k.count ≤ 256) × (width k.row ≤ 256) × (width k.column ≤ 256) }
    ensures { (result ≡ slots k) × (result ≤ 16777216) }
{
    width(k.count) * width(k.row) * width(k.column)
}

// The first slot of each kind, and the number of all slots after them.
pub fn first_slots(file: Shape, z: Sizes) -> [usize; 34]
    requires { Small z }
    ensures { result ≡ first_slots (kinds_of file z) }
{
    let mut firsts = [0usize; 34];
    let mut total: usize = 0;
    for k in 0..33u8 {
        total = total + slots_of(kind_at(file, z, k));
        firsts[usize::from(k) + 1] = total;
    }
    firsts
}

// A cell's place among those of its kind.
fn offset_in(k: Kind, n: usize, r: usize, c: usize) -> usize
    requires { (width k.count ≤ 256) × (width k.row ≤ 256) × (width k.column ≤ 256) × (n < width k.count) × (r < width k.row) × (c < width k.column) }
    ensures { (result ≡ offset k n r c) × (result ≤ 16777216) }
{
    (n * width(k.row) + r) * width(k.column) + c
}

// The slot of the cell that record i names, by its kind, which is k and has the record, and by that kind's first slot.
fn slot_at(k: Kind, first: usize, s: &[u8], i: usize) -> usize
    requires { (i < count s.now) × (out_of k s.now i ≡ false) × (width k.count ≤ 256) × (width k.row ≤ 256) × (width k.column ≤ 256) × (first ≤ 553648128) }
    ensures { result ≡ first + offset k (index_of k.count (count_of s.now i)) (index_of k.row (row_of s.now i)) (index_of k.column (column_of s.now i)) }
{
    let n = index_of(k.count, count_at(s, i));
    let r = index_of(k.row, row_at(s, i));
    let c = index_of(k.column, column_at(s, i));
    first + offset_in(k, n, r, c)
}

// The number of the kind that was asked for last, and what the table says of it. Records rise by kind, so the table is asked again only where the kind changes.
#[derive(Drop)]
struct LastKind {
    number: u8,
    kind: Kind,
}

impl LastKind {
    // What the table says of a kind.
    fn kind_at(&mut self, file: Shape, z: Sizes, number: u8) -> Kind
        requires { self.old.kind ≡ kind_at (kinds_of file z) self.old.number }
        ensures value { result ≡ kind_at (kinds_of file z) number }
        ensures asked { self.new.number ≡ number }
        ensures last { self.new.kind ≡ kind_at (kinds_of file z) self.new.number }
    {
        if number != self.number {
            self.number = number;
            self.kind = kind_at(file, z, number);
        }
        self.kind
    }
}

// The slot of the cell that record i names.
fn slot_of(
    file: Shape,
    z: Sizes,
    firsts: &[usize; 34],
    s: &[u8],
    i: usize,
    last: &mut LastKind,
) -> usize
    requires small { Small z × (firsts.now ≡ first_slots (kinds_of file z)) }
    requires named { (i < count s.now) × (beyond (kinds_of file z) s.now i ≡ false) }
    requires last { last.old.kind ≡ kind_at (kinds_of file z) last.old.number }
    ensures value { result ≡ slot_of (kinds_of file z) s.now i }
    ensures within { (result < slot_count (kinds_of file z)) × (result ≤ 553648128) }
    ensures asked { last.new.number ≡ kind_of s.now i }
    ensures last { last.new.kind ≡ kind_at (kinds_of file z) last.new.number }
{
    let number = kind_of(s, i);
    let kind = last.kind_at(file, z, number);
    slot_at(kind, firsts[usize::from(number)], s, i)
}

// Sets the flag of each cell that a record names, until one names a cell that an earlier one names. The lent flags are all clear at first; a file of more records than cells stops at the first that is
// there already.
pub fn mark_cells(file: Shape, z: Sizes, firsts: &[usize; 34], s: &[u8], flags: &mut [bool]) -> bool
    requires small { Small z × (firsts.now ≡ first_slots (kinds_of file z)) × (any (count s.now) (beyond (kinds_of file z) s.now) ≡ false) }
    requires flags_value { (flags.old ≡ replicate (length flags.old) false) × (slot_count (kinds_of file z) ≤ length flags.old) }
    ensures value { result ≡ any (count s.now) (again (kinds_of file z) s.now) }
    ensures flags_after { result ≡ false → flags.new ≡ flags_after (length flags.old) (kinds_of file z) s.now (count s.now) }
{
    let mut last = LastKind {
        number: 0,
        kind: kind_at(file, z, 0),
    };
    for i in 0..s.len() / 16 {
        let at = slot_of(file, z, firsts, s, i, &mut last);
        if flags[at] {
            return true;
        }
        flags[at] = true;
    }
    false
}

// The number in each cell, +0 where no record names it. The lent sheet is all +0 at first.
pub fn fill_sheet(file: Shape, z: Sizes, firsts: &[usize; 34], s: &[u8], sheet: &mut [f64])
    requires small { Small z × (firsts.now ≡ first_slots (kinds_of file z)) × (any (count s.now) (beyond (kinds_of file z) s.now) ≡ false) }
    requires sheet_value { (sheet.old ≡ replicate (length sheet.old) plus_zero) × (slot_count (kinds_of file z) ≤ length sheet.old) }
    ensures { sheet.new ≡ sheet_after (length sheet.old) (kinds_of file z) s.now (count s.now) }
{
    let mut last = LastKind {
        number: 0,
        kind: kind_at(file, z, 0),
    };
    for i in 0..s.len() / 16 {
        let at = slot_of(file, z, firsts, s, i, &mut last);
        sheet[at] = value_at(s, i);
    }
}

// One of the m flags from `at` on is not set.
fn gap_in(flags: &[bool], at: usize, m: usize) -> bool
    requires { at + m ≤ length flags.now }
    ensures { result ≡ gap flags.now at m }
{
    flags[at..at + m].contains(&false)
}

// Kind k misses a cell; where absent cells are zero it misses none.
fn missing_in(file: Shape, z: Sizes, firsts: &[usize; 34], flags: &[bool], k: u8) -> bool
    requires { Small z × (firsts.now ≡ first_slots (kinds_of file z)) × (slot_count (kinds_of file z) ≤ length flags.now) × (k < kind_numbers) }
    ensures { result ≡ missing_in (kinds_of file z) flags.now k }
{
    let kind = kind_at(file, z, k);
    if kind.sparse {
        return false;
    }
    gap_in(flags, firsts[usize::from(k)], slots_of(kind))
}

pub fn any_missing(file: Shape, z: Sizes, firsts: &[usize; 34], flags: &[bool]) -> bool
    requires { Small z × (firsts.now ≡ first_slots (kinds_of file z)) × (slot_count (kinds_of file z) ≤ length flags.now) }
    ensures { result ≡ any kind_numbers (missing_in (kinds_of file z) flags.now) }
{
    for k in 0..33u8 {
        if missing_in(file, z, firsts, flags, k) {
            return true;
        }
    }
    false
}
