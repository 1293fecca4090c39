// Rows of the Gs: m cells of row i from column lo on, put at d of a slice. The terms of a group come to all its cells before those of the next group, which leaves each cell the
// order of its sum, and what depends on the row alone is made once for it.
ghost use Rattle.std.specs.Prelude.{◌≡◌, ℕ, true, [], ◌+◌, ◌*◌, ◌≤◌, ◌<◌, length, get_or};
ghost use Rattle.std.specs.Float.{nan};
ghost use Rattle.arithmetic.specs.Numbers.{plus_zero};
ghost use Rattle.algebra.specs.Fold.{fold};
ghost use Rattle.algebra.specs.Kind.{floats};
ghost use Rattle.algebra.specs.Product.{at, sum};
ghost use Rattle.algebra_large.specs.joints.Slab.{put_row};
ghost use Rattle.adjustment.specs.Blocks.{places_before};
ghost use Rattle.adjustment.specs.Covariance.{group_cell, block_cell, residual_cell, g_cell};
ghost use Rattle.adjustment_covariance.specs.joints.Bounds.{Placed};
ghost use Rattle.adjustment_covariance.specs.joints.Lent.{weighted, weights, z_rows, Held, lent_design, Lent};

use crate::cells::{cell_of, directed_cell, group_column};
use adjustment::{CovarianceDesign, Place};

// The term of a group of K effects at row i: by rising index, each effect's number times its column's cell.
fn group_term<const K: usize>(
    design: &CovarianceDesign,
    i: usize,
    columns: [usize; K],
    directed: [f64; K],
) -> f64
    requires { Held design.now × (i < design.now.specimens) × ((b : ℕ) → b < K → get_or columns b 0 < design.now.columns) }
    ensures { result ≡ sum floats K (λ b. floats.times (get_or directed.entry b nan) (at floats (z_rows design.now) i (get_or columns.entry b 0))) }
{
    let mut total = 0.0;
    for b in 0..K {
        total = total + directed[b] * cell_of(design, i, columns[b]);
    }
    total
}

// Each cell gains the term of a group of K effects.
pub fn gain_effects<const K: usize>(
    out: &mut [f64],
    d: usize,
    m: usize,
    design: &CovarianceDesign,
    lo: usize,
    columns: [usize; K],
    directed: [f64; K],
)
    requires { (d + m ≤ length out.old) × Held design.now × (lo + m ≤ design.now.specimens) × ((b : ℕ) → b < K → get_or columns b 0 < design.now.columns) }
    ensures { out.new ≡ put_row d m (λ j. floats.plus (get_or out.old (d + j) nan) (sum floats K (λ b. floats.times (get_or directed.entry b nan) (at floats (z_rows design.now) (lo + j) (get_or columns.entry b 0))))) out.old }
{
    // A copy that no write to the row can reach: its fields are read once, and not for each cell.
    let own = *design;
    prove!(lo <= design.specimens);
    for j in 0..m {
        out[d + j] = out[d + j] + group_term(&own, lo + j, columns, directed);
    }
}

// Each cell gains the term of group g: its cell of (Z_g E) Z_gᵀ.
pub fn gain_group(
    out: &mut [f64],
    d: usize,
    m: usize,
    design: &CovarianceDesign,
    lo: usize,
    t: Place,
    g: usize,
    i: usize,
)
    requires { (d + m ≤ length out.old) × Held design.now × (lo + m ≤ design.now.specimens) × Placed t design.now.columns × (g < t.groups) × (i < design.now.specimens) }
    ensures { out.new ≡ put_row d m (λ j. floats.plus (get_or out.old (d + j) nan) (group_cell (z_rows design.now) t g i (lo + j))) out.old }
{
    let k = group_column(t, design.columns, g, 0);
    let u = directed_cell(design, t, g, i, 0);
    if t.effects == 1 {
        gain_effects(out, d, m, design, lo, [k], [u]);
        return;
    }
    let l = group_column(t, design.columns, g, 1);
    let v = directed_cell(design, t, g, i, 1);
    gain_effects(out, d, m, design, lo, [k, l], [u, v]);
}

// Each cell gains the terms of all groups, by rising index.
pub fn gain_groups(
    out: &mut [f64],
    d: usize,
    m: usize,
    design: &CovarianceDesign,
    lo: usize,
    t: Place,
    i: usize,
)
    requires { (d + m ≤ length out.old) × Held design.now × (lo + m ≤ design.now.specimens) × Placed t design.now.columns × (i < design.now.specimens) }
    ensures { out.new ≡ put_row d m (λ j. fold 0 t.groups (λ g y. floats.plus y (group_cell (z_rows design.now) t g i (lo + j))) (get_or out.old (d + j) nan)) out.old }
{
    for g in 0..t.groups {
        gain_group(out, d, m, design, lo, t, g, i);
    }
}

// Row i of a block's G.
pub fn block_row(
    out: &mut [f64],
    d: usize,
    m: usize,
    design: &CovarianceDesign,
    lo: usize,
    t: Place,
    i: usize,
)
    requires { (d + m ≤ length out.old) × Held design.now × (lo + m ≤ design.now.specimens) × Placed t design.now.columns × (i < design.now.specimens) }
    ensures { out.new ≡ put_row d m (λ j. block_cell (z_rows design.now) t i (lo + j)) out.old }
{
    algebra_large::rows::clear_row(out, d, m);
    gain_groups(out, d, m, design, lo, t, i);
}

// Row i of the last G.
pub fn residual_row(
    out: &mut [f64],
    d: usize,
    m: usize,
    design: &CovarianceDesign,
    lo: usize,
    i: usize,
)
    requires { (d + m ≤ length out.old) × (lo + m ≤ 18446744073709551615) × (weighted design.now ≡ true → i < length (weights design.now)) }
    ensures { out.new ≡ put_row d m (λ j. residual_cell (weighted design.now) (weights design.now) i (lo + j)) out.old }
{
    for j in 0..m {
        out[d + j] = crate::cells::residual_cell(design, i, lo + j);
    }
}

// Row i of G_r.
pub fn g_row(
    out: &mut [f64],
    d: usize,
    m: usize,
    design: &CovarianceDesign,
    lo: usize,
    r: usize,
    i: usize,
)
    requires { (d + m ≤ length out.old) × Lent design.now × (lo + m ≤ design.now.specimens) × (r ≤ places_before design.now.blocks design.now.count) × (i < design.now.specimens) }
    ensures { out.new ≡ put_row d m (λ j. g_cell (lent_design design.now []) r i (lo + j)) out.old }
{
    let last = adjustment_covariance::blocks::places_before(design.blocks, design.count);
    if r == last {
        prove!(lo <= design.specimens);
        residual_row(out, d, m, design, lo, i);
        return;
    }
    let t = adjustment_covariance::blocks::place_of(design.blocks, design.count, r);
    block_row(out, d, m, design, lo, t, i);
}
