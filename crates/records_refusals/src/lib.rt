// What refuses a series before anything is computed, and its numbers in the lent sheet (kenward_roger).
#![tactic(auto)]

ghost use Rattle.std.specs.Prelude.{◌≡◌, false, cond, ℕ, ◌+◌, ◌*◌, ◌≤◌, length, replicate, OnOk};
ghost use Rattle.adjustment.specs.Blocks.{block_at};
ghost use Rattle.records.specs.format.Kinds.{kinds_of, limits};
ghost use Rattle.records.specs.format.Cells.{slot_count};
ghost use Rattle.records.specs.format.File.{count};
ghost use Rattle.records.specs.format.RefusalNumbers.{result_number};
ghost use Rattle.records.specs.readers.Series.{kinds, refusal};
ghost use Rattle.records_sheet.specs.joints.Sheet.{Small, first_slots, sheet_after};
ghost use Rattle.records_refusals.specs.joints.Checks.{records_refusal, negatives, bad_weight_in, all_torn_in, sheet_refusal};
ghost use Rattle.records_refusals.specs.joints.Room.{Room};
ghost use Rattle.records.specs.declared.Shape.TheVariants.{Series};

use records::refusal::Refusal;
use records::{RecordKind, Shape, Sizes};
use records_block_limits::{bad_size, misfit};
use records_series::{any_miscounted, blocks_of};

// One of the m numbers from `at` on is below zero.
fn any_negative(sheet: &[f64], at: usize, m: usize) -> bool
    requires { at + m ≤ length sheet.now }
    ensures { result ≡ negatives sheet.now at m }
{
    sheet[at..at + m].iter().any(|x| *x < 0.0)
}

// A weight below zero: number 6. The weights start at `at`.
fn bad_weight(z: Sizes, sheet: &[f64], at: usize) -> bool
    requires { at + cond z.weighted z.specimens 0 ≤ length sheet.now }
    ensures { result ≡ bad_weight_in z sheet.now at }
{
    if z.weighted {
        return any_negative(sheet, at, z.specimens);
    }
    false
}

// No specimen has a weight other than zero: number 3. The weights start at `at`.
fn all_torn(z: Sizes, sheet: &[f64], at: usize) -> bool
    requires { at + cond z.weighted z.specimens 0 ≤ length sheet.now }
    ensures { result ≡ all_torn_in z sheet.now at }
{
    if z.weighted {
        return !records_contrast::any_nonzero(sheet, at, z.specimens);
    }
    false
}

// Refuses what the sheet says: 5 to 8, lowest number first.
fn sheet_refusal(
    z: Sizes,
    blocks: [adjustment::Block; 3],
    firsts: &[usize; 34],
    sheet: &[f64],
) -> Result<(), Refusal>
    requires small { Small z × (z.blocks ≤ 3) × (firsts.now ≡ first_slots (kinds_of Series z)) × (slot_count (kinds_of Series z) ≤ length sheet.now) }
    requires by_index { (b : ℕ) → ((block_at blocks b).effects ≤ 255) × ((block_at blocks b).groups ≤ 4294967295) }
    ensures { result_number result ≡ sheet_refusal z blocks sheet.now }
{
    let variance = firsts[RecordKind::Sigma2 as usize];
    let weights = firsts[RecordKind::Weight as usize];
    let contrast = firsts[RecordKind::Contrast as usize];
    if sheet[variance] <= 0.0 {
        return Err(Refusal::Variance);
    }
    if bad_weight(z, sheet, weights) {
        return Err(Refusal::Weight);
    }
    if misfit(z, blocks) {
        return Err(Refusal::Misfit);
    }
    if records_contrast::zero_contrast(z, sheet, contrast) {
        return Err(Refusal::ZeroContrast);
    }
    Ok(())
}

// Refuses a file by its length, its order and form, and its blocks' parameter counts: 2, 12 and 13. The lent flags are all clear at first.
fn records_refusal(w: usize, s: &[u8], flags: &mut [bool]) -> Result<(), Refusal>
    requires { (1 ≤ w) × (w ≤ 256) × (flags.old ≡ replicate (length flags.old) false) × (slot_count (kinds_of Series (limits w)) ≤ length flags.old) }
    ensures { result_number result ≡ records_refusal w s.now }
{
    records_form::file_refusal(Shape::Series, w, s, flags)?;
    if any_miscounted(s) {
        return Err(Refusal::BlockCount);
    }
    Ok(())
}

// Refuses a file before anything is computed, with the limit of specimens w; where it is taken the sheet holds the file's numbers.
pub fn refusal(w: usize, s: &[u8], flags: &mut [bool], sheet: &mut [f64]) -> Result<(), Refusal>
    requires { Room w flags.old sheet.old }
    ensures value { result_number result ≡ refusal w s.now }
    ensures sheet_after { OnOk result (sheet.new ≡ sheet_after (length sheet.old) (kinds s.now) s.now (count s.now)) }
{
    records_refusal(w, s, flags)?;
    let z = records_sizes::series_sizes(s);
    let blocks = blocks_of(s, z.blocks);
    if bad_size(blocks, z.blocks) {
        return Err(Refusal::Size);
    }
    let firsts = records_sheet::first_slots(Shape::Series, z);
    records_sheet::fill_sheet(Shape::Series, z, &firsts, s, sheet);
    let weights = firsts[RecordKind::Weight as usize];
    if all_torn(z, &sheet[..], weights) {
        return Err(Refusal::Size);
    }
    if records_file::any_not_finite(s) {
        return Err(Refusal::NotFinite);
    }
    sheet_refusal(z, blocks, &firsts, &sheet[..])
}
