// An archive's reader: what refuses its bytes, and its numbers in the lent sheet.
#![tactic(auto)]

ghost use Rattle.std.specs.Prelude.{◌≡◌, false, ◌+◌, ◌≤◌, length, replicate, OnOk};
ghost use Rattle.arithmetic.specs.Numbers.{plus_zero};
ghost use Rattle.records.specs.format.Kinds.{archive_kinds, archive_table};
ghost use Rattle.records.specs.format.Cells.{slot_count};
ghost use Rattle.records.specs.format.File.{count};
ghost use Rattle.records.specs.format.RefusalNumbers.{result_number};
ghost use Rattle.records.specs.readers.Archive.{kinds, refusal};
ghost use Rattle.records_sheet.specs.joints.Sheet.{first_slots, sheet_after};
ghost use Rattle.records_archive_reader.specs.joints.Checks.{differs, in_units, not_scaled, misscaled_in, numbers_refusal};

use records::refusal::Refusal;
use records::{RecordKind, Shape, Sizes};

// The bits of two numbers differ: +0 and -0 do.
fn differs(x: f64, y: f64) -> bool
    ensures { result ≡ differs x y }
{
    arithmetic::plain::to_bits(x) != arithmetic::plain::to_bits(y)
}

// A number in response units: its residual one times sigma2, or over it.
fn in_units(over: bool, x: f64, sigma2: f64) -> f64
    ensures { result ≡ in_units over x sigma2 }
{
    if over {
        return x / sigma2;
    }
    x * sigma2
}

// One of the m numbers from `scaled` on is not its residual one, from `residual` on, in response units.
fn any_not_scaled(
    over: bool,
    sheet: &[f64],
    scaled: usize,
    residual: usize,
    m: usize,
    sigma2: f64,
) -> bool
    requires { (scaled + m ≤ length sheet.now) × (residual + m ≤ length sheet.now) }
    ensures { result ≡ not_scaled over sheet.now scaled residual m sigma2 }
{
    for j in 0..m {
        let x = in_units(over, sheet[residual + j], sigma2);
        if differs(sheet[scaled + j], x) {
            return true;
        }
    }
    false
}

// A scaled record, of Φ, of Φ_A or of a P, is not its residual one scaled: number 2.
fn misscaled(z: Sizes, firsts: &[usize; 34], sheet: &[f64]) -> bool
    requires { (z.coefficients ≤ 6) × (z.parameters ≤ 4) × (firsts.now ≡ first_slots (archive_kinds z)) × (slot_count (archive_kinds z) ≤ length sheet.now) }
    ensures { result ≡ misscaled_in z sheet.now }
{
    let p = z.coefficients;
    let square = p * p;
    let squares = z.parameters * square;
    let sigma2 = sheet[firsts[RecordKind::ArchivedSigma2 as usize]];
    let phi = any_not_scaled(
        false,
        sheet,
        firsts[RecordKind::ScaledPhi as usize],
        firsts[RecordKind::ArchivedPhi as usize],
        square,
        sigma2,
    );
    let phi_a = any_not_scaled(
        false,
        sheet,
        firsts[RecordKind::ScaledPhiA as usize],
        firsts[RecordKind::ArchivedPhiA as usize],
        square,
        sigma2,
    );
    let ps = any_not_scaled(
        true,
        sheet,
        firsts[RecordKind::ScaledP as usize],
        firsts[RecordKind::ArchivedP as usize],
        squares,
        sigma2,
    );
    phi | phi_a | ps
}

// Refuses a sigma2 not above zero, 5, and then a scaled record, 2.
fn numbers_refusal(z: Sizes, firsts: &[usize; 34], sheet: &[f64]) -> Result<(), Refusal>
    requires { (z.coefficients ≤ 6) × (z.parameters ≤ 4) × (firsts.now ≡ first_slots (archive_kinds z)) × (slot_count (archive_kinds z) ≤ length sheet.now) }
    ensures { result_number result ≡ numbers_refusal z sheet.now }
{
    if sheet[firsts[RecordKind::ArchivedSigma2 as usize]] <= 0.0 {
        return Err(Refusal::Variance);
    }
    if misscaled(z, firsts, sheet) {
        return Err(Refusal::Form);
    }
    Ok(())
}

// Refuses an archive; where it is taken the lent sheet holds its numbers. The flags are all clear at first and the sheet is all +0, with a slot for every cell that the
// limits allow.
pub fn refusal(s: &[u8], flags: &mut [bool], sheet: &mut [f64]) -> Result<(), Refusal>
    requires flags_value { (flags.old ≡ replicate (length flags.old) false) × (slot_count archive_table ≤ length flags.old) }
    requires sheet_value { (sheet.old ≡ replicate (length sheet.old) plus_zero) × (slot_count archive_table ≤ length sheet.old) }
    ensures value { result_number result ≡ refusal s.now }
    ensures sheet_after { OnOk result (sheet.new ≡ sheet_after (length sheet.old) (kinds s.now) s.now (count s.now)) }
{
    records_form::file_refusal(Shape::Archived, 1, s, flags)?;
    if records_file::any_not_finite(s) {
        return Err(Refusal::NotFinite);
    }
    let z = records_sizes::archive_sizes(s);
    let firsts = records_sheet::first_slots(Shape::Archived, z);
    records_sheet::fill_sheet(Shape::Archived, z, &firsts, s, sheet);
    numbers_refusal(z, &firsts, &sheet[..])
}
