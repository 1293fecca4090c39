// The Kenward–Roger covariance adjustment as one call, over lent slices, for any number of specimens.
#![tactic(auto)]

ghost use Rattle.std.specs.Prelude.{◌≡◌, [], ◌+◌, ◌*◌, ◌≤◌, length, IfOk};
ghost use Rattle.adjustment.specs.Blocks.{places_before};
ghost use Rattle.adjustment.specs.Adjusted.{from_precision, adjustment, adjustment_refusal};
ghost use Rattle.adjustment.specs.Refusals.{number_told};
ghost use Rattle.adjustment_covariance.specs.joints.Lent.{Lent, HeldX};
ghost use Rattle.adjustment_work.specs.joints.Work.{SizedFor, whole_design, zeros, with_hs, work_of};
ghost use Rattle.adjustment_adjusted.specs.joints.FromInformation.{accepted, phi_side};
ghost use Rattle.adjustment_kr_vcov_adj.specs.joints.Parts.{ps_of, qs_of, ie_of, after_precision};
ghost use Rattle.adjustment_work.specs.joints.Steps.{s_at};

use adjustment::{AdjustedPhi, AdjustmentRefusal, LentDesign};
use adjustment_work::squares::clear_all;
use arithmetic_cutoffs::Cutoffs;

pub mod precision;

// IE, and on the way to it the Hs in the work slice, the Ps and the packed Qs; S stands in square 1. The narrow slice ends as zeros. The thetas are not looked at.
pub fn information(
    work: &mut [f64],
    s: usize,
    narrow: &mut [f64],
    design: &LentDesign,
    k: usize,
    phi: [[f64; 6]; 6],
    ps: &mut [[[f64; 6]; 6]; 4],
    qs: &mut [[[f64; 6]; 6]; 10],
) -> [[f64; 6]; 6]
    requires sized { SizedFor design.now s (length work.old) (length narrow.old) × HeldX design.now }
    requires lent { Lent design.now.covariance × (k ≡ places_before design.now.covariance.blocks design.now.covariance.count + 1) }
    ensures work_after { work.new ≡ with_hs s (whole_design design.now []) (s_at s design.now.covariance.specimens work.old) work.old }
    ensures narrow_after { narrow.new ≡ zeros (length narrow.old) }
    ensures ps_after { ps.new ≡ ps_of (whole_design design.now []) (s_at s design.now.covariance.specimens work.old) }
    ensures qs_after { qs.new ≡ qs_of (whole_design design.now []) (s_at s design.now.covariance.specimens work.old) }
    ensures value { result ≡ ie_of (whole_design design.now []) phi (s_at s design.now.covariance.specimens work.old) }
{
    let n = design.covariance.specimens;
    let p = design.coefficients;
    adjustment_work::stacks::fill_hs(work, s, &design.covariance, k);
    adjustment_work::stacks::fill_sx(narrow, s, work, design);
    adjustment_work::stacks::fill_os(narrow, s, work, design, k);
    let all_p = adjustment_stacks::ps_of(narrow, s, n, p, k);
    let all_q = adjustment_stacks::qs_of(narrow, s, work, n, p, k);
    clear_all(narrow);
    *ps = all_p;
    *qs = all_q;
    adjustment_stacks::ie_of(work, s, n, p, k, phi, all_p, all_q)
}

// From S on, which stands in square 1: a refusal, for a zero pivot or a number that is not finite, leaves the Ps as they are, and the work slice as zeros.
pub fn from_precision(
    work: &mut [f64],
    s: usize,
    narrow: &mut [f64],
    design: &LentDesign,
    phi: [[f64; 6]; 6],
    sigma2: f64,
    c: Cutoffs,
    ps: &mut [[[f64; 6]; 6]; 4],
) -> Result<AdjustedPhi, AdjustmentRefusal>
    requires { SizedFor design.now s (length work.old) (length narrow.old) × HeldX design.now × Lent design.now.covariance }
    ensures told { number_told result ≡ after_precision c (whole_design design.now []) phi sigma2 (s_at s design.now.covariance.specimens work.old) }
    ensures value { IfOk result (λ a. a ≡ phi_side (from_precision c (whole_design design.now []) phi (s_at s design.now.covariance.specimens work.old))) }
    ensures ps_after { ps.new ≡ accepted (number_told result) (from_precision c (whole_design design.now []) phi (s_at s design.now.covariance.specimens work.old)).ps ps.old }
    ensures work_after { work.new ≡ accepted (number_told result) (with_hs s (whole_design design.now []) (s_at s design.now.covariance.specimens work.old) work.old) (zeros (length work.old)) }
    ensures narrow_after { narrow.new ≡ zeros (length narrow.old) }
{
    let side = design.covariance;
    let k = adjustment_covariance::blocks::places_before(side.blocks, side.count) + 1;
    let blank = algebra_products::zeros();
    let mut all_p = [blank; 4];
    let mut all_q = [blank; 10];
    let ie = information(work, s, narrow, design, k, phi, &mut all_p, &mut all_q);
    let answer = adjustment_adjusted::from_information(
        c,
        design.coefficients,
        k,
        phi,
        sigma2,
        all_p,
        all_q,
        ie,
    );
    if answer.is_err() {
        clear_all(work);
        return answer;
    }
    *ps = all_p;
    answer
}

// The covariance adjustment (vcov_adj16_with_pw): Σ, S and the Hs in the work slice, the Ps in what is lent for them, and Φ_A with W and the number of rotations; or why there is none: a Σ that
// is not definite, a zero pivot of L or of IE, an output that is not finite. A refusal leaves the Ps as they are, and the work slice as zeros. The narrow slice ends as zeros either way. The row
// stride s of the work slice is 24 for the panel; there may be any number of specimens up to it.
pub fn vcov_adj16_with_pw(
    work: &mut [f64],
    s: usize,
    narrow: &mut [f64],
    design: &LentDesign,
    phi: [[f64; 6]; 6],
    sigma2: f64,
    c: Cutoffs,
    ps: &mut [[[f64; 6]; 6]; 4],
) -> Result<AdjustedPhi, AdjustmentRefusal>
    requires { SizedFor design.now s (length work.old) (length narrow.old) × HeldX design.now × Lent design.now.covariance }
    ensures told { number_told result ≡ adjustment_refusal c (whole_design design.now design.now.theta) phi sigma2 }
    ensures value { IfOk result (λ a. a ≡ phi_side (adjustment c (whole_design design.now design.now.theta) phi)) }
    ensures ps_after { ps.new ≡ accepted (number_told result) (adjustment c (whole_design design.now design.now.theta) phi).ps ps.old }
    ensures work_after { work.new ≡ accepted (number_told result) (work_of s (length work.old) (whole_design design.now design.now.theta)) (zeros (length work.old)) }
    ensures narrow_after { narrow.new ≡ zeros (length narrow.old) }
{
    let early = precision::sigma_and_precision(work, s, &design.covariance, design.theta);
    if let Err(refusal) = early {
        clear_all(narrow);
        return Err(refusal);
    }
    from_precision(work, s, narrow, design, phi, sigma2, c, ps)
}
