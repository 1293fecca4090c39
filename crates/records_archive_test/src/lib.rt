// The test from an archive: the bytes of an archive and of a second file in, seven entries or a refusal out.
#![tactic(auto)]

ghost use Rattle.std.specs.Prelude.{◌≡◌, ◌≤◌, cond, eqb, length, replicate};
ghost use Rattle.std.specs.Result.{result_unwrap_or};
ghost use Rattle.records.specs.format.Layout.{answer_bytes, answer_length};
ghost use Rattle.records.specs.format.RefusalNumbers.{result_number};
ghost use Rattle.records.specs.readers.CutoffTable.{built_in_table};
ghost use Rattle.algebra.specs.Kind.{marks};
ghost use Rattle.tests.specs.Answer.{no_entry};
ghost use Rattle.tests.specs.KenwardRoger.{run_of};
ghost use Rattle.tests_run.specs.joints.Units.{response_units};
ghost use Rattle.records.specs.readers.Archive.{coefficients};
ghost use Rattle.records.specs.readers.SecondFile.{beta, beta_h, contrast_rows, contrast};
ghost use Rattle.records.specs.calls.ArchiveCall.{archive_run, from_archive_number, from_archive_entries, testing_returned, testing_written};
ghost use Rattle.records_archive_test.specs.joints.Read.{ArchiveOnSheet, SecondOnSheet};

use arithmetic_cutoffs::{Cutoffs, document_cutoffs};
use records::refusal::Refusal;
use records::{ANSWER_LENGTH, RecordKind, Shape};
use records_answer_bytes::put_answer;
use records_sheet_parts::{cells_at, six_at, stack_at};
use tests::{Covariances, Entry, Hypothesis, Run};
use tests_entries::answer_of;
use tests_run::compute_kenward_roger;

// The tests of what a second file says, on matrices in residual units. A zero pivot in any of them refuses the run.
fn tests_with(
    c: Cutoffs,
    residual: &Covariances<f64>,
    ps: &[[[f64; 6]; 6]; 4],
    sigma2: f64,
    t: &[u8],
    numbers: &[f64],
) -> Run
    requires { (residual.now.matrices ≤ 4) × (residual.now.p ≤ 6) × SecondOnSheet residual.now.p t.now numbers.now }
    ensures { result ≡ run_of marks c (response_units residual.now ps.now sigma2) (beta t.now) (beta_h t.now) (contrast_rows t.now) (contrast t.now) }
{
    let p = residual.p;
    let z = records_sizes::second_sizes(t);
    let firsts = records_sheet::first_slots(Shape::Second, z);
    // β, the contrast and β_H start here.
    let estimates = firsts[RecordKind::Beta as usize];
    let contrast = firsts[RecordKind::Contrast as usize];
    let hypotheses = firsts[RecordKind::BetaH as usize];
    let beta = six_at(numbers, estimates, p);
    let beta_h = six_at(numbers, hypotheses, records_kinds::given(z.hypothesis, p));
    let l = cells_at(numbers, contrast, z.contrasts, p);
    let hypothesis = Hypothesis {
        beta,
        beta_h,
        rows: z.contrasts,
        l,
    };
    compute_kenward_roger(c, residual, ps, sigma2, &hypothesis)
}

// The tests from an archive and a second file that their readers take, from their sheets: Φ, Φ_A and each P in residual units, W and sigma2. The scaled records are not looked at.
fn tests_from(c: Cutoffs, s: &[u8], sheet: &[f64], t: &[u8], numbers: &[f64]) -> Run
    requires { ArchiveOnSheet s.now sheet.now × SecondOnSheet (coefficients s.now) t.now numbers.now }
    ensures { result ≡ archive_run c s.now t.now }
{
    let z = records_sizes::archive_sizes(s);
    let firsts = records_sheet::first_slots(Shape::Archived, z);
    let p = z.coefficients;
    let n = z.parameters;
    // W, Φ, Φ_A, each P and sigma2 start here.
    let inverse = firsts[RecordKind::W as usize];
    let square = firsts[RecordKind::ArchivedPhi as usize];
    let adjusted = firsts[RecordKind::ArchivedPhiA as usize];
    let squares = firsts[RecordKind::ArchivedP as usize];
    let variance = firsts[RecordKind::ArchivedSigma2 as usize];
    let w = cells_at(sheet, inverse, n, n);
    let phi = cells_at(sheet, square, p, p);
    let phi_a = cells_at(sheet, adjusted, p, p);
    let ps = stack_at(sheet, squares, n, p);
    let residual = Covariances {
        p,
        matrices: n,
        phi,
        phi_a,
        w,
    };
    tests_with(c, &residual, &ps, sheet[variance], t, numbers)
}

// The entries of the two files, or what refuses them: the archive before the second, and then a zero pivot in any test.
pub fn judge(c: Cutoffs, s: &[u8], t: &[u8]) -> Result<[Entry; 7], Refusal>
    ensures value { result_number result ≡ from_archive_number c s.now t.now }
    ensures answered { result_unwrap_or result (replicate 7 no_entry) ≡ from_archive_entries c s.now t.now }
{
    let mut flags = [false; 512];
    let mut sheet = [0.0; 512];
    records_archive_reader::refusal(s, &mut flags, &mut sheet)?;
    let z = records_sizes::archive_sizes(s);
    let mut marks = [false; 64];
    let mut numbers = [0.0; 64];
    records_second_file::refusal(z.coefficients, t, &mut marks, &mut numbers)?;
    let run = tests_from(c, s, &sheet, t, &numbers);
    let Some(es) = answer_of(run) else {
        return Err(Refusal::ZeroPivot);
    };
    Ok(es)
}

// The answer to an archive and a second file with these cutoffs, in the lent answer bytes. A refusal leaves the bytes as they are.
fn fill_tests(c: Cutoffs, archive: &[u8], tests: &[u8], answer: &mut [u8]) -> Result<(), Refusal>
    requires { length answer.old ≡ answer_length }
    ensures value { result_number result ≡ from_archive_number c archive.now tests.now }
    ensures answer_after { answer.new ≡ cond (eqb (from_archive_number c archive.now tests.now) 0) (answer_bytes (from_archive_entries c archive.now tests.now)) answer.old }
{
    let es = judge(c, archive, tests)?;
    put_answer(answer, es);
    Ok(())
}

// The call with a lab's table: 1 for the lent length, 14 for the table, and then the answer to the archive and the second file with its cutoffs.
pub fn test_with(
    table: &[u8],
    archive: &[u8],
    tests: &[u8],
    answer: &mut [u8],
) -> Result<(), Refusal>
    ensures value { result_number result ≡ testing_returned table.now archive.now tests.now answer.old }
    ensures answer_after { answer.new ≡ testing_written table.now archive.now tests.now answer.old }
{
    if answer.len() != ANSWER_LENGTH {
        return Err(Refusal::LentLength);
    }
    if records_cutoffs::bad_table(table) {
        return Err(Refusal::CutoffTable);
    }
    fill_tests(records_cutoffs::cutoffs_in(table), archive, tests, answer)
}

// The call without a table: the one with the built-in table, whose numbers are at hand.
pub fn test(archive: &[u8], tests: &[u8], answer: &mut [u8]) -> Result<(), Refusal>
    ensures value { result_number result ≡ testing_returned built_in_table archive.now tests.now answer.old }
    ensures answer_after { answer.new ≡ testing_written built_in_table archive.now tests.now answer.old }
{
    if answer.len() != ANSWER_LENGTH {
        return Err(Refusal::LentLength);
    }
    fill_tests(document_cutoffs(), archive, tests, answer)
}
