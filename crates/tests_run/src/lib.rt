// The Kenward–Roger run: each coefficient alone, then the contrast if one is given (kenward_roger).
#![tactic(auto)]

ghost use Rattle.std.specs.Prelude.{◌≡◌, ◌≤◌};
ghost use Rattle.tests.specs.KenwardRoger.{coefficients_to, run_of};
ghost use Rattle.tests_kr_modcomp.specs.joints.Parts.{scaled_of};
ghost use Rattle.tests_run.specs.joints.Units.{response_units};
ghost use Rattle.algebra.specs.Kind.{marks};

use adjustment_response_units::scaled_up;
use arithmetic::Marked;
use arithmetic_cutoffs::Cutoffs;
use tests::{Covariances, Hypothesis, Run};
use tests_entries::no_entry;
use tests_kr_modcomp::full_rank::scaled_ps;
use tests_kr_modcomp::modcomp::{coefficient_test, kr_modcomp_test};

// The tests of the coefficients, each alone. A zero pivot in any of them refuses the run.
pub fn coefficients(
    c: Cutoffs,
    s: &Covariances<Marked>,
    ps: &[[[Marked; 6]; 6]; 4],
    beta: [f64; 6],
) -> Run
    requires { (s.now.matrices ≤ 4) × (s.now.p ≤ 6) }
    ensures { result ≡ coefficients_to marks s.now.p c (scaled_of s.now ps.now) beta }
{
    let mut run = Run {
        refused: false,
        entries: [no_entry(); 7],
    };
    for i in 0..s.p {
        let t = coefficient_test(c, s, ps, beta, i);
        run = run.with_test(i, t);
    }
    run
}

// The run on scaled matrices. A contrast of no rows is none.
pub fn run_scaled(
    c: Cutoffs,
    s: &Covariances<Marked>,
    ps: &[[[Marked; 6]; 6]; 4],
    h: &Hypothesis,
) -> Run
    requires { (s.now.matrices ≤ 4) × (s.now.p ≤ 6) × (h.now.rows ≤ 6) }
    ensures { result ≡ run_of marks c (scaled_of s.now ps.now) h.now.beta h.now.beta_h h.now.rows h.now.l }
{
    let run = coefficients(c, s, ps, h.beta);
    if h.rows == 0 {
        return run;
    }
    run.with_test(6, kr_modcomp_test(c, s, ps, h))
}

// The run, from the adjustment in residual units. The scaling, with which the Rust's kenward_roger_modcomp_data ends, is done once for all the tests.
pub fn compute_kenward_roger(
    c: Cutoffs,
    s: &Covariances<f64>,
    ps: &[[[f64; 6]; 6]; 4],
    sigma2: f64,
    h: &Hypothesis,
) -> Run
    requires { (s.now.matrices ≤ 4) × (s.now.p ≤ 6) × (h.now.rows ≤ 6) }
    ensures { result ≡ run_of marks c (response_units s.now ps.now sigma2) h.now.beta h.now.beta_h h.now.rows h.now.l }
{
    let p = s.p;
    let scaled = Covariances {
        p,
        matrices: s.matrices,
        phi: scaled_up(p, s.phi, sigma2),
        phi_a: scaled_up(p, s.phi_a, sigma2),
        w: s.w,
    };
    run_scaled(c, &scaled, &scaled_ps(ps, sigma2, s.matrices, p), h)
}
