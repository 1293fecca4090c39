// The whole Kenward–Roger call: the bytes of a file in, a number and seven entries out (kenward_roger).
#![tactic(auto)]

ghost use Rattle.std.specs.Prelude.{◌≡◌, false, [], cond, ◌-◌, ◌*◌, ◌≤◌, length, eqb, is_some, take, drop};
ghost use Rattle.std.specs.Option.{option_copied, unwrap_or};
ghost use Rattle.arithmetic_cutoffs.specs.Cutoffs.{document_cutoffs};
ghost use Rattle.records.specs.format.Layout.{answer_bytes, answer_length};
ghost use Rattle.records.specs.format.RefusalNumbers.{result_number};
ghost use Rattle.records.specs.readers.CutoffTable.{built_in_table};
ghost use Rattle.records.specs.text.Text.{text_of};
ghost use Rattle.records.specs.readers.Series.{sizes, kinds, design};
ghost use Rattle.records_sheet.specs.joints.Sheet.{first_slots};
ghost use Rattle.records_refusals.specs.joints.Room.{Room, SeriesRead, SeriesShort};
ghost use Rattle.records.specs.calls.KenwardRogerCall.{adjusted, run, number, entries, returned, written};
ghost use Rattle.records.specs.format.Kinds.{panel_limit};
ghost use Rattle.records_kenward_roger.specs.joints.Left.{Adjusts, Judges};
ghost use Rattle.records_answer_text.specs.joints.Cursor.{Put, text_room};

use adjustment::{AdjustedPhi, AdjustmentRefusal, CovarianceDesign, LentDesign};
use adjustment_kr_vcov_adj::vcov_adj16_with_pw;
use arithmetic_cutoffs::{Cutoffs, document_cutoffs};
use records::refusal::Refusal;
use records::{ANSWER_LENGTH, PANEL_LIMIT, RecordKind, Shape, Sizes};
use records_answer_bytes::put_answer;
use records_answer_text::{TEXT_ROOM, put_run};
use records_sheet_parts::{cells_at, six_at};
use tests::{Covariances, Entry, Hypothesis, Run};
use tests_entries::{answer_of, no_entry};
use tests_run::compute_kenward_roger;

// What is lent at the panel: a place for each of the cells that its limit allows, six squares of 24 rows of 24, and six parts of 24 rows of 6. All of it is cleared in each call.
pub const PANEL_CELLS: usize = 835;

pub const PANEL_WORK: usize = 3456;

pub const PANEL_NARROW: usize = 864;

// The weights on a sheet, from `first` up to `end`, where there are any.
fn weights_on(sheet: &[f64], weighted: bool, first: usize, end: usize) -> Option<&[f64]>
    requires { (first ≤ end) × (end ≤ length sheet.now) × (weighted ≡ false → end ≡ first) }
    ensures { (is_some result ≡ weighted) × (unwrap_or (option_copied result) [] ≡ take (end - first) (drop first sheet.now)) }
{
    if weighted {
        return Some(&sheet[first..end]);
    }
    None
}

// The adjustment of a series that the reader takes, from its sheet, on which n specimens are left that are not torn, in lent slices with room for six squares of as many rows, and for six parts of so
// many rows of 6: no more is cleared than the series uses. Where there is no adjustment the Ps stay as they are.
pub fn kenward_roger_modcomp_data(
    limit: usize,
    c: Cutoffs,
    s: &[u8],
    z: Sizes,
    n: usize,
    firsts: &[usize; 34],
    sheet: &[f64],
    work: &mut [f64],
    narrow: &mut [f64],
    ps: &mut [[[f64; 6]; 6]; 4],
) -> Result<AdjustedPhi, AdjustmentRefusal>
    requires { SeriesShort limit s.now z firsts.now sheet.now × (n ≡ (design s.now).n) × (6 * (limit * limit) ≤ length work.old) × (36 * limit ≤ length narrow.old) }
    ensures { Adjusts c s.now result ps.old ps.new }
{
    let p = z.coefficients;
    let squares = 6 * (n * n);
    let parts = 36 * n;
    // X, Z, the blocks, the thetas, the weights, Φ and sigma2 start here.
    let x = firsts[RecordKind::X as usize];
    let random = firsts[RecordKind::Z as usize];
    let block = firsts[RecordKind::Block as usize];
    let thetas = firsts[RecordKind::Theta as usize];
    let weights = firsts[RecordKind::Weight as usize];
    let square = firsts[RecordKind::Phi as usize];
    let variance = firsts[RecordKind::Sigma2 as usize];
    let weighed = weights + records_kinds::given(z.weighted, n);
    let covariance = CovarianceDesign {
        specimens: n,
        z: &sheet[random..block],
        stride: z.columns,
        columns: z.columns,
        weights: weights_on(sheet, z.weighted, weights, weighed),
        blocks: records_series::blocks_of(s, z.blocks),
        count: z.blocks,
    };
    let design = LentDesign {
        covariance,
        x: &sheet[x..random],
        x_stride: p,
        coefficients: p,
        theta: records_sheet_parts::three_at(sheet, thetas, z.thetas),
    };
    let phi = cells_at(sheet, square, p, p);
    vcov_adj16_with_pw(
        &mut work[..squares],
        n,
        &mut narrow[..parts],
        &design,
        phi,
        sheet[variance],
        c,
        ps,
    )
}

// The tests of such a series, from its adjustment. A zero pivot in any of them refuses the run.
pub fn tests_of(
    limit: usize,
    c: Cutoffs,
    s: &[u8],
    z: Sizes,
    firsts: &[usize; 34],
    sheet: &[f64],
    phi_a: [[f64; 6]; 6],
    ps: [[[f64; 6]; 6]; 4],
    w: [[f64; 6]; 6],
) -> Run
    requires series_short { SeriesShort limit s.now z firsts.now sheet.now }
    requires phi_a_value { (phi_a ≡ (adjusted c s.now).phi_a) × (ps ≡ (adjusted c s.now).ps) × (w ≡ (adjusted c s.now).w) }
    ensures { result ≡ run c s.now }
{
    let p = z.coefficients;
    let blocks = records_series::blocks_of(s, z.blocks);
    let n = adjustment_covariance::blocks::places_before(blocks, z.blocks) + 1;
    // Φ, sigma2, β, the contrast and β_H start here.
    let square = firsts[RecordKind::Phi as usize];
    let variance = firsts[RecordKind::Sigma2 as usize];
    let estimates = firsts[RecordKind::Beta as usize];
    let contrast = firsts[RecordKind::Contrast as usize];
    let hypotheses = firsts[RecordKind::BetaH as usize];
    let phi = cells_at(sheet, square, p, p);
    let beta = six_at(sheet, estimates, p);
    let beta_h = six_at(sheet, hypotheses, records_kinds::given(z.hypothesis, p));
    let l = cells_at(sheet, contrast, z.contrasts, p);
    let residual = Covariances {
        p,
        matrices: n,
        phi,
        phi_a,
        w,
    };
    let hypothesis = Hypothesis {
        beta,
        beta_h,
        rows: z.contrasts,
        l,
    };
    compute_kenward_roger(c, &residual, &ps, sheet[variance], &hypothesis)
}

// What is computed of a series that nothing refuses: its entries, the rotations that its adjustment made, and the specimens of its run.
#[derive(Clone, Copy)]
pub struct JudgedSeries {
    pub entries: [Entry; 7],
    pub rotations: usize,
    pub specimens: usize,
}

// The run of a series that the reader takes. The specimens that are torn are left out on its sheet.
fn run_of(
    limit: usize,
    c: Cutoffs,
    s: &[u8],
    sheet: &mut [f64],
    work: &mut [f64],
    narrow: &mut [f64],
) -> Result<JudgedSeries, Refusal>
    requires { SeriesRead limit s.now (sizes s.now) (first_slots (kinds s.now)) sheet.old × (6 * (limit * limit) ≤ length work.old) × (36 * limit ≤ length narrow.old) }
    ensures { Judges limit c s.now result }
{
    let z = records_sizes::series_sizes(s);
    let firsts = records_sheet::first_slots(Shape::Series, z);
    let n = records_torn::shorten(z, &firsts, sheet);
    let mut ps = [algebra_products::zeros(); 4];
    let adjusted = kenward_roger_modcomp_data(
        limit,
        c,
        s,
        z,
        n,
        &firsts,
        &sheet[..],
        work,
        narrow,
        &mut ps,
    )?;
    let run = tests_of(
        limit,
        c,
        s,
        z,
        &firsts,
        &sheet[..],
        adjusted.phi_a,
        ps,
        adjusted.w,
    );
    let Some(entries) = answer_of(run) else {
        return Err(Refusal::ZeroPivot);
    };
    Ok(JudgedSeries {
        entries,
        rotations: adjusted.rotations,
        specimens: n,
    })
}

// What is computed of a file, or what refuses it, whatever its bytes are, with a limit of specimens. What is lent for the reading and for the adjustment has the room that the limit asks for.
pub fn judge(
    limit: usize,
    c: Cutoffs,
    s: &[u8],
    flags: &mut [bool],
    sheet: &mut [f64],
    work: &mut [f64],
    narrow: &mut [f64],
) -> Result<JudgedSeries, Refusal>
    requires { Room limit flags.old sheet.old × (6 * (limit * limit) ≤ length work.old) × (36 * limit ≤ length narrow.old) }
    ensures { Judges limit c s.now result }
{
    records_refusals::refusal(limit, s, flags, sheet)?;
    run_of(limit, c, s, sheet, work, narrow)
}

// The same at the panel, whose limit is 24 specimens: room for every cell that it allows, for six squares of 24 rows of 24 and for six parts of 24 rows of 6.
pub fn judge_panel(c: Cutoffs, s: &[u8]) -> Result<JudgedSeries, Refusal>
    ensures { Judges panel_limit c s.now result }
{
    let mut flags = [false; PANEL_CELLS];
    let mut sheet = [0.0; PANEL_CELLS];
    let mut work = [0.0; PANEL_WORK];
    let mut narrow = [0.0; PANEL_NARROW];
    judge(
        PANEL_LIMIT,
        c,
        s,
        &mut flags,
        &mut sheet,
        &mut work,
        &mut narrow,
    )
}

// The answer to a file with these cutoffs, in the lent answer bytes. A refusal leaves the bytes as they are.
fn fill_answer(c: Cutoffs, records: &[u8], answer: &mut [u8]) -> Result<(), Refusal>
    requires { length answer.old ≡ answer_length }
    ensures value { result_number result ≡ number panel_limit c records.now }
    ensures answer_after { answer.new ≡ cond (eqb (number panel_limit c records.now) 0) (answer_bytes (entries panel_limit c records.now)) answer.old }
{
    let judged = judge_panel(c, records)?;
    put_answer(answer, judged.entries);
    Ok(())
}

// The call with a lab's table: 1 for the lent length, 14 for the table, and then the answer to the records with its cutoffs.
pub fn call_with(table: &[u8], records: &[u8], answer: &mut [u8]) -> Result<(), Refusal>
    ensures value { result_number result ≡ returned panel_limit table.now records.now answer.old }
    ensures answer_after { answer.new ≡ written panel_limit table.now records.now answer.old }
{
    if answer.len() != ANSWER_LENGTH {
        return Err(Refusal::LentLength);
    }
    if records_cutoffs::bad_table(table) {
        return Err(Refusal::CutoffTable);
    }
    fill_answer(records_cutoffs::cutoffs_in(table), records, answer)
}

// The call without a table: the one with the built-in table, whose numbers are at hand.
pub fn call(records: &[u8], answer: &mut [u8]) -> Result<(), Refusal>
    ensures value { result_number result ≡ returned panel_limit built_in_table records.now answer.old }
    ensures answer_after { answer.new ≡ written panel_limit built_in_table records.now answer.old }
{
    if answer.len() != ANSWER_LENGTH {
        return Err(Refusal::LentLength);
    }
    fill_answer(document_cutoffs(), records, answer)
}

// What `pulltest` prints of a file: its text from the front of `out`, whose other bytes stay, and the text's length.
pub fn text(records: &[u8], out: &mut [u8; TEXT_ROOM]) -> usize
    ensures { Put text_room out.old 0 (text_of (number panel_limit document_cutoffs records.now) (entries panel_limit document_cutoffs records.now)) out.new result }
{
    match judge_panel(document_cutoffs(), records) {
        Ok(judged) => put_run(out, 0, 0, judged.entries),
        Err(refusal) => put_run(out, 0, u32::from(refusal), [no_entry(); 7]),
    }
}
