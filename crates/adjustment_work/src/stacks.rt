// From S on, in the lent slices: the Hs in the work slice, S X and the Os in the narrow slice. k is the number of matrices.
ghost use Rattle.std.specs.Prelude.{◌≡◌, [], ◌+◌, ◌*◌, ◌≤◌, length};
ghost use Rattle.algebra_large.specs.joints.Slab.{put_rows};
ghost use Rattle.adjustment.specs.Blocks.{places_before};
ghost use Rattle.adjustment.specs.Covariance.{g_rows};
ghost use Rattle.adjustment.specs.Information.{h_rows, o_rows};
ghost use Rattle.adjustment_covariance.specs.joints.Lent.{lent_design, Lent, x_rows, HeldX};
ghost use Rattle.adjustment_work.specs.joints.Work.{square, part, SizedFor, put_stack};
ghost use Rattle.adjustment_work.specs.joints.Steps.{s_at, h_at};

use crate::squares::{part_at, square_at};
use adjustment::{CovarianceDesign, LentDesign};

// Square 2 + r becomes H_r, for each r < k, of S in square 1.
pub fn fill_hs(work: &mut [f64], s: usize, design: &CovarianceDesign, k: usize)
    requires { (design.now.specimens ≤ s) × (6 * (s * s) ≤ length work.old) × Lent design.now × (k ≤ places_before design.now.blocks design.now.count + 1) }
    ensures { work.new ≡ put_stack s (s * s) 2 design.now.specimens design.now.specimens k (λ r. h_rows design.now.specimens (g_rows (lent_design design.now []) r) (s_at s design.now.specimens work.old)) work.old }
{
    for r in 0..k {
        let q = square_at(s, 1, work.len());
        let d = square_at(s, 2 + r, work.len());
        adjustment_sigma::fill_h(work, d, q, s, design, r);
    }
}

// Part 0 becomes S X.
pub fn fill_sx(narrow: &mut [f64], s: usize, work: &[f64], design: &LentDesign)
    requires { SizedFor design.now s (length work.now) (length narrow.old) × HeldX design.now }
    ensures { narrow.new ≡ put_rows 6 (part s 0) design.now.covariance.specimens design.now.coefficients (o_rows design.now.covariance.specimens design.now.coefficients (s_at s design.now.covariance.specimens work.now) (x_rows design.now)) narrow.old }
{
    let a = square_at(s, 1, work.len());
    let d = part_at(s, 0, narrow.len());
    adjustment_covariance::information::fill_o(narrow, d, work, a, s, design);
}

// Part 1 + r becomes O_r, for each r < k.
pub fn fill_os(narrow: &mut [f64], s: usize, work: &[f64], design: &LentDesign, k: usize)
    requires { SizedFor design.now s (length work.now) (length narrow.old) × HeldX design.now × (k ≤ 4) }
    ensures { narrow.new ≡ put_stack 6 (6 * s) 1 design.now.covariance.specimens design.now.coefficients k (λ r. o_rows design.now.covariance.specimens design.now.coefficients (h_at s design.now.covariance.specimens work.now r) (x_rows design.now)) narrow.old }
{
    for r in 0..k {
        let a = square_at(s, 2 + r, work.len());
        let d = part_at(s, 1 + r, narrow.len());
        adjustment_covariance::information::fill_o(narrow, d, work, a, s, design);
    }
}
