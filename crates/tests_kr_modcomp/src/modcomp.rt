// The Kenward–Roger test of a contrast, by way of its basis; and that of one coefficient.
ghost use Rattle.std.specs.Prelude.{◌≡◌, ◌≤◌};
ghost use Rattle.tests.specs.KenwardRoger.{coefficient_test, contrast_test};
ghost use Rattle.tests_kr_modcomp.specs.joints.Parts.{scaled_of};
ghost use Rattle.algebra.specs.Kind.{marks};

use crate::full_rank::{kr_modcomp_full_rank, unit_row};
use arithmetic::Marked;
use arithmetic_cutoffs::Cutoffs;
use tests::{Covariances, Hypothesis, Tested};
use tests_basis::basis::contrast_basis;

// The test of a contrast of some rows. Its entry holds the rank too, so that it is the Rust's kenward_roger_contrast_f_test as well.
pub fn kr_modcomp_test(
    c: Cutoffs,
    s: &Covariances<Marked>,
    ps: &[[[Marked; 6]; 6]; 4],
    h: &Hypothesis,
) -> Tested
    requires { (s.now.matrices ≤ 4) × (s.now.p ≤ 6) × (h.now.rows ≤ 6) }
    ensures { result ≡ contrast_test marks c (scaled_of s.now ps.now) h.now.beta h.now.beta_h h.now.rows h.now.l }
{
    let basis = contrast_basis(h.l, h.rows, s.p);
    kr_modcomp_full_rank(c, s, ps, h.beta, h.beta_h, basis)
}

// The test of coefficient i alone, with hypothesis values 0.
pub fn coefficient_test(
    c: Cutoffs,
    s: &Covariances<Marked>,
    ps: &[[[Marked; 6]; 6]; 4],
    beta: [f64; 6],
    i: usize,
) -> Tested
    requires { (s.now.matrices ≤ 4) × (s.now.p ≤ 6) }
    ensures { result ≡ coefficient_test marks c (scaled_of s.now ps.now) beta i }
{
    let alone = Hypothesis {
        beta,
        beta_h: [0.0; 6],
        rows: 1,
        l: unit_row(s.p, i),
    };
    kr_modcomp_test(c, s, ps, &alone)
}
