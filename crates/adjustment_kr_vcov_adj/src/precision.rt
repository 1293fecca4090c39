// Σ, L, L⁻¹ and S, in the work slice. L stands in square 2, L⁻¹ in square 3, and the elimination takes squares 4 and 5; all are cleared before the Hs are made.
ghost use Rattle.std.specs.Prelude.{◌≡◌, ◌+◌, ◌-◌, ◌*◌, ◌<◌, ◌≤◌, length};
ghost use Rattle.arithmetic.specs.Numbers.{plus_zero};
ghost use Rattle.algebra.specs.Kind.{floats};
ghost use Rattle.algebra.specs.Product.{identity};
ghost use Rattle.algebra.specs.Elimination.{eliminate_to, joined};
ghost use Rattle.algebra_large.specs.joints.Slab.{rows_at, put_row, put_rows, gram_of, Holds, Apart};
ghost use Rattle.adjustment.specs.Covariance.{cholesky, not_definite, inverse_factor, inverse_factor_refused, precision, sigma_rows};
ghost use Rattle.adjustment.specs.Refusals.{number_told};
ghost use Rattle.adjustment_covariance.specs.joints.Lent.{lent_design, Lent};
ghost use Rattle.adjustment_work.specs.joints.Work.{square, zeros, precision_in};
ghost use Rattle.adjustment_adjusted.specs.joints.FromInformation.{accepted};
ghost use Rattle.adjustment_kr_vcov_adj.specs.joints.Parts.{precision_refusal};

use adjustment::{AdjustmentRefusal, CovarianceDesign};
use adjustment_work::squares::{clear_all, clear_rest, square_at};

// Square 2 becomes L, the Cholesky factor of Σ in square 0; true where a diagonal is not above zero, and L is of no use.
pub fn fill_factor(work: &mut [f64], s: usize, n: usize) -> bool
    requires { (n ≤ s) × (6 * (s * s) ≤ length work.old) }
    ensures work_after { work.new ≡ put_rows s (square s 2) n n (cholesky n (rows_at s (square s 0) n n work.old)) work.old }
    ensures value { result ≡ not_definite n (rows_at s (square s 0) n n work.old) }
{
    let a = square_at(s, 0, work.len());
    let b = square_at(s, 2, work.len());
    algebra_large_products::whole::copy(work, b, s, a, s, n, n);
    let z = algebra_large_factor::cholesky(work, b, s, n);
    algebra_large_factor::zero_above(work, b, s, n);
    z
}

// Square 3 becomes L⁻¹, of L in square 2, by elimination in squares 4 and 5; true where a pivot is zero, and L⁻¹ is of no use.
pub fn fill_inverse(work: &mut [f64], s: usize, n: usize) -> bool
    requires { (n ≤ s) × (6 * (s * s) ≤ length work.old) }
    ensures work_after { work.new ≡ put_rows s (square s 3) n n (inverse_factor n (rows_at s (square s 2) n n work.old)) (put_rows (s + s) (square s 4) n (n + n) (eliminate_to floats n n (n + n) (joined floats n (n + n) n n (rows_at s (square s 2) n n work.old) (identity floats n n n))) work.old) }
    ensures value { result ≡ inverse_factor_refused n (rows_at s (square s 2) n n work.old) }
{
    let l = square_at(s, 2, work.len());
    let b = square_at(s, 3, work.len());
    let a = square_at(s, 4, work.len());
    algebra_large_inverse::back::invert(work, b, s, a, s + s, l, s, n)
}

// The matrix at a becomes S = L⁻ᵀL⁻¹, of L⁻¹ at b: the product of its transpose with itself.
pub fn precision_at(work: &mut [f64], a: usize, b: usize, s: usize, n: usize)
    requires { Holds s a n n (length work.old) × Holds s b n n (length work.old) × Apart a (n * s) b (n * s) }
    ensures { work.new ≡ put_rows s a n n (gram_of n n (rows_at s b n n work.old)) work.old }
{
    algebra_large_products::whole::gram(work, a, s, b, s, n, n);
}

// Square 1 becomes S = L⁻ᵀL⁻¹, of L⁻¹ in square 3.
pub fn fill_precision(work: &mut [f64], s: usize, n: usize)
    requires { (n ≤ s) × (6 * (s * s) ≤ length work.old) }
    ensures { work.new ≡ put_rows s (square s 1) n n (precision n (rows_at s (square s 3) n n work.old)) work.old }
{
    let a = square_at(s, 1, work.len());
    let b = square_at(s, 3, work.len());
    precision_at(work, a, b, s, n);
}

// Σ in square 0 and S in square 1, of a work slice that is cleared first, and ends as zeros elsewhere. A refusal, for a Σ that is not definite or a zero pivot, leaves zeros alone.
pub fn sigma_and_precision(
    work: &mut [f64],
    s: usize,
    design: &CovarianceDesign,
    theta: [f64; 3],
) -> Result<(), AdjustmentRefusal>
    requires { (design.now.specimens ≤ s) × (6 * (s * s) ≤ length work.old) × Lent design.now }
    ensures told { number_told result ≡ precision_refusal (lent_design design.now theta) }
    ensures work_after { work.new ≡ accepted (number_told result) (precision_in s (length work.old) (lent_design design.now theta)) (zeros (length work.old)) }
{
    let n = design.specimens;
    clear_all(work);
    let a = square_at(s, 0, work.len());
    adjustment_sigma::build_sigma_g(work, a, s, design, theta);
    if fill_factor(work, s, n) {
        clear_all(work);
        return Err(AdjustmentRefusal::NotDefinite);
    }
    if fill_inverse(work, s, n) {
        clear_all(work);
        return Err(AdjustmentRefusal::ZeroPivot);
    }
    fill_precision(work, s, n);
    clear_rest(work, s);
    Ok(())
}
