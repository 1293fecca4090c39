// The whole Satterthwaite call: the bytes of a file in, an entry or a refusal out (ddf).
#![tactic(auto)]

ghost use Rattle.std.specs.Prelude.{◌≡◌, false, cond, eqb, ◌≤◌, length, replicate, OnOk};
ghost use Rattle.std.specs.Result.{result_unwrap_or};
ghost use Rattle.arithmetic.specs.Numbers.{plus_zero};
ghost use Rattle.tests.specs.Answer.{no_entry};
ghost use Rattle.tests.specs.Satterthwaite.{satterthwaite as test_of};
ghost use Rattle.records.specs.format.Kinds.{satterthwaite_kinds, satterthwaite};
ghost use Rattle.records.specs.format.Cells.{slot_count};
ghost use Rattle.records.specs.format.Layout.{entry_bytes, entry_length};
ghost use Rattle.records.specs.format.RefusalNumbers.{result_number};
ghost use Rattle.records.specs.readers.CutoffTable.{built_in_table};
ghost use Rattle.records.specs.format.File.{count};
ghost use Rattle.records.specs.readers.Parameters.{kinds, refusal};
ghost use Rattle.records_sheet.specs.joints.Sheet.{first_slots, sheet_after};
ghost use Rattle.records_ddf.specs.joints.Gathered.{inputs_from};
ghost use Rattle.records.specs.calls.SatterthwaiteCall.{number, entry, returned, written};
ghost use Rattle.algebra.specs.Kind.{marks};

use arithmetic_cutoffs::{Cutoffs, document_cutoffs};
use records::refusal::Refusal;
use records::{ENTRY_LENGTH, RecordKind, Shape, Sizes};
use records_answer_bytes::put_entry;
use records_sheet_parts::{cells_at, six_at, stack_at};
use tests::{Entry, TestInputs, Tested};
use tests_ddf::satterthwaite::satterthwaite_contrast_f_test;

// Refuses a file before anything is computed; where it is taken the lent sheet holds its numbers. The flags are all clear at first and the sheet is all +0, with a
// slot for every cell that the limits allow.
fn refusal(s: &[u8], flags: &mut [bool], sheet: &mut [f64]) -> Result<(), Refusal>
    requires flags_value { (flags.old ≡ replicate (length flags.old) false) × (slot_count satterthwaite ≤ length flags.old) }
    requires sheet_value { (sheet.old ≡ replicate (length sheet.old) plus_zero) × (slot_count satterthwaite ≤ length sheet.old) }
    ensures value { result_number result ≡ refusal s.now }
    ensures sheet_after { OnOk result (sheet.new ≡ sheet_after (length sheet.old) (kinds s.now) s.now (count s.now)) }
{
    records_form::file_refusal(Shape::Test, 1, s, flags)?;
    if records_file::any_not_finite(s) {
        return Err(Refusal::NotFinite);
    }
    let z = records_sizes::parameter_sizes(s);
    let firsts = records_sheet::first_slots(Shape::Test, z);
    records_sheet::fill_sheet(Shape::Test, z, &firsts, s, sheet);
    Ok(())
}

// The test of what the sheet says.
fn test(c: Cutoffs, sheet: &[f64], firsts: &[usize; 34], z: Sizes) -> Tested
    requires coefficients_bound { (z.coefficients ≤ 6) × (z.contrasts ≤ 6) × (z.parameters ≤ 4) }
    requires firsts_value { (firsts.now ≡ first_slots (satterthwaite_kinds z)) × (slot_count (satterthwaite_kinds z) ≤ length sheet.now) }
    ensures { result ≡ test_of marks c (inputs_from sheet.now z) }
{
    let p = z.coefficients;
    let q = z.contrasts;
    let n = z.parameters;
    // β, the contrast, β_H, v, the Jacobians and A start here.
    let estimates = firsts[RecordKind::Beta as usize];
    let contrast = firsts[RecordKind::Contrast as usize];
    let hypotheses = firsts[RecordKind::BetaH as usize];
    let variance = firsts[RecordKind::V as usize];
    let jacobians = firsts[RecordKind::Jacobian as usize];
    let parameters = firsts[RecordKind::A as usize];
    let beta = six_at(sheet, estimates, p);
    let l = cells_at(sheet, contrast, q, p);
    let beta_h = six_at(sheet, hypotheses, records_kinds::given(z.hypothesis, p));
    let v = cells_at(sheet, variance, p, p);
    let js = stack_at(sheet, jacobians, n, p);
    let a = cells_at(sheet, parameters, n, n);
    let inputs = TestInputs {
        p,
        q,
        n,
        l,
        beta,
        beta_h,
        v,
        a,
    };
    satterthwaite_contrast_f_test(c, &inputs, &js)
}

// The entry of a file, or what refuses it.
pub fn judge(c: Cutoffs, s: &[u8]) -> Result<Entry, Refusal>
    ensures value { result_number result ≡ number c s.now }
    ensures answered { result_unwrap_or result no_entry ≡ entry c s.now }
{
    let mut flags = [false; 256];
    let mut sheet = [0.0; 256];
    refusal(s, &mut flags, &mut sheet)?;
    let z = records_sizes::parameter_sizes(s);
    let firsts = records_sheet::first_slots(Shape::Test, z);
    let tested = test(c, &sheet, &firsts, z);
    if tested.refused {
        return Err(Refusal::Eigenvalue);
    }
    Ok(tested.entry)
}

// The answer to a file with these cutoffs, in the lent entry's bytes. A refusal leaves the bytes as they are.
fn fill_entry(c: Cutoffs, records: &[u8], answer: &mut [u8]) -> Result<(), Refusal>
    requires { length answer.old ≡ entry_length }
    ensures value { result_number result ≡ number c records.now }
    ensures answer_after { answer.new ≡ cond (eqb (number c records.now) 0) (entry_bytes (entry c records.now)) answer.old }
{
    let e = judge(c, records)?;
    put_entry(answer, 0, e);
    Ok(())
}

// The call with a lab's table: 1 for the lent length, 14 for the table, and then the answer to the records with its cutoffs.
pub fn call_with(table: &[u8], records: &[u8], answer: &mut [u8]) -> Result<(), Refusal>
    ensures value { result_number result ≡ returned table.now records.now answer.old }
    ensures answer_after { answer.new ≡ written table.now records.now answer.old }
{
    if answer.len() != ENTRY_LENGTH {
        return Err(Refusal::LentLength);
    }
    if records_cutoffs::bad_table(table) {
        return Err(Refusal::CutoffTable);
    }
    fill_entry(records_cutoffs::cutoffs_in(table), records, answer)
}

// The call without a table: the one with the built-in table, whose numbers are at hand.
pub fn call(records: &[u8], answer: &mut [u8]) -> Result<(), Refusal>
    ensures value { result_number result ≡ returned built_in_table records.now answer.old }
    ensures answer_after { answer.new ≡ written built_in_table records.now answer.old }
{
    if answer.len() != ENTRY_LENGTH {
        return Err(Refusal::LentLength);
    }
    fill_entry(document_cutoffs(), records, answer)
}
