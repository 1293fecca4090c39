// The cells of Z, of Z_g E and of the last G, each made where it is asked for.
ghost use Rattle.std.specs.Prelude.{◌≡◌, true, ◌+◌, ◌*◌, ◌≤◌, ◌<◌, length, get_or};
ghost use Rattle.std.specs.Float.{nan, binary64};
ghost use Rattle.std.specs.Float.Ieee.{div};
ghost use Rattle.arithmetic.specs.Numbers.{one};
ghost use Rattle.algebra.specs.Kind.{floats};
ghost use Rattle.algebra.specs.Product.{at};
ghost use Rattle.adjustment.specs.Covariance.{group_column, directed_cell, residual_cell};
ghost use Rattle.adjustment_covariance.specs.joints.Bounds.{Placed};
ghost use Rattle.adjustment_covariance.specs.joints.Lent.{weighted, weights, z_rows, Held};

use adjustment::{CovarianceDesign, Place};
use adjustment_covariance::blocks::direction;

// Cell (i, j) of Z.
pub fn cell_of(design: &CovarianceDesign, i: usize, j: usize) -> f64
    requires { Held design.now × (i < design.now.specimens) × (j < design.now.columns) }
    ensures { result ≡ at floats (z_rows design.now) i j }
{
    let from = algebra_large::rows::start(
        0,
        design.stride,
        i,
        design.specimens,
        design.columns,
        design.z.len(),
    );
    design.z[from + j]
}

// Column a of group g in Z.
pub fn group_column(t: Place, columns: usize, g: usize, a: usize) -> usize
    requires { Placed t columns × (g < t.groups) × (a < t.effects) }
    ensures { (result ≡ group_column t g a) × (result < columns) }
{
    t.start + g * t.effects + a
}

// Cell (i, b) of Z_g E.
pub fn directed_cell(design: &CovarianceDesign, t: Place, g: usize, i: usize, b: usize) -> f64
    requires { Held design.now × Placed t design.now.columns × (g < t.groups) × (i < design.now.specimens) }
    ensures { result ≡ directed_cell (z_rows design.now) t g i b }
{
    let mut total = 0.0;
    for a in 0..t.effects {
        let j = group_column(t, design.columns, g, a);
        total = total + cell_of(design, i, j) * direction(t, a, b);
    }
    total
}

// What stands on the diagonal of the last G where there are weights: 1/weight.
fn inverse_weight(weights: &[f64], i: usize) -> f64
    requires { i < length weights.now }
    ensures { result ≡ div binary64 one (get_or weights.now i nan) }
{
    1.0 / weights[i]
}

// Cell (i, j) of the last G: 1/weight on the diagonal, or 1 without weights.
pub fn residual_cell(design: &CovarianceDesign, i: usize, j: usize) -> f64
    requires { weighted design.now ≡ true → i < length (weights design.now) }
    ensures { result ≡ residual_cell (weighted design.now) (weights design.now) i j }
{
    if i != j {
        return 0.0;
    }
    match design.weights {
        Some(weights) => inverse_weight(weights, i),
        None => 1.0,
    }
}
