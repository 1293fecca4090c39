// The reader of the second file that is lent with an archive: what refuses its bytes, and its numbers in the lent sheet.
#![tactic(auto)]

ghost use Rattle.std.specs.Prelude.{◌≡◌, false, ◌≤◌, length, replicate, OnOk};
ghost use Rattle.arithmetic.specs.Numbers.{plus_zero};
ghost use Rattle.records.specs.format.Kinds.{test_table};
ghost use Rattle.records.specs.format.Cells.{slot_count};
ghost use Rattle.records.specs.format.File.{count};
ghost use Rattle.records.specs.format.RefusalNumbers.{result_number};
ghost use Rattle.records.specs.readers.SecondFile.{kinds, refusal};
ghost use Rattle.records_sheet.specs.joints.Sheet.{sheet_after};

use records::refusal::Refusal;
use records::{RecordKind, Shape};

// Refuses it, p being the archive's coefficients; where it is taken the lent sheet holds its numbers. The flags are all clear at first and the sheet is all +0, with a slot
// for every cell that the limits allow.
pub fn refusal(p: usize, t: &[u8], flags: &mut [bool], sheet: &mut [f64]) -> Result<(), Refusal>
    requires flags_value { (flags.old ≡ replicate (length flags.old) false) × (slot_count test_table ≤ length flags.old) }
    requires sheet_value { (sheet.old ≡ replicate (length sheet.old) plus_zero) × (slot_count test_table ≤ length sheet.old) }
    ensures value { result_number result ≡ refusal p t.now }
    ensures sheet_after { OnOk result (sheet.new ≡ sheet_after (length sheet.old) (kinds t.now) t.now (count t.now)) }
{
    records_form::file_refusal(Shape::Second, 1, t, flags)?;
    let z = records_sizes::second_sizes(t);
    if z.coefficients != p {
        return Err(Refusal::Form);
    }
    if records_file::any_not_finite(t) {
        return Err(Refusal::NotFinite);
    }
    let firsts = records_sheet::first_slots(Shape::Second, z);
    records_sheet::fill_sheet(Shape::Second, z, &firsts, t, sheet);
    let contrast = firsts[RecordKind::Contrast as usize];
    if records_contrast::zero_contrast(z, &sheet[..], contrast) {
        return Err(Refusal::ZeroContrast);
    }
    Ok(())
}
