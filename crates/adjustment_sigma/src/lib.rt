// Σ, and H_r = G_r S, in the lent slice: n rows and columns with the row stride s. A row of a G stands in a local of 24 cells, so a longer row is made in parts.
#![tactic(auto)]

ghost use Rattle.std.specs.Prelude.{◌≡◌, true, [], ◌+◌, ◌*◌, ◌≤◌, ◌<◌, length, get_or};
ghost use Rattle.std.specs.Float.{nan};
ghost use Rattle.arithmetic.specs.Numbers.{plus_zero};
ghost use Rattle.algebra.specs.Fold.{fold};
ghost use Rattle.algebra.specs.Kind.{floats};
ghost use Rattle.algebra_large.specs.joints.Slab.{rows_at, put_row, put_rows, Holds, Apart};
ghost use Rattle.adjustment.specs.Blocks.{places_before};
ghost use Rattle.adjustment.specs.Covariance.{factor, g_cell, g_rows, sigma_cell, sigma_rows};
ghost use Rattle.adjustment.specs.Information.{h_rows};
ghost use Rattle.adjustment_covariance.specs.joints.Bounds.{Sound};
ghost use Rattle.adjustment_covariance.specs.joints.Lent.{design, lent_design, Lent, gained_with};

use adjustment::{Block, CovarianceDesign};
use adjustment_covariance_rows::rows::g_row;

// The factor of G_r in Σ. It looks at neither Z nor the weights.
pub fn factor(blocks: [Block; 3], count: usize, theta: [f64; 3], r: usize) -> f64
    requires { Sound blocks count × (r ≤ places_before blocks count) }
    ensures { result ≡ factor (design 0 [] true [] blocks count theta) r }
{
    let last = adjustment_covariance::blocks::places_before(blocks, count);
    if r == last {
        return 1.0;
    }
    let t = adjustment_covariance::blocks::place_of(blocks, count, r);
    adjustment_covariance::blocks::factor_of(theta, t)
}

// How many of a row's cells from column lo on are made at a time.
pub fn part(n: usize, lo: usize) -> usize
    requires { lo ≤ n }
    ensures { (result ≤ 24) × (lo + result ≤ n) × (lo < n → 0 < result) }
{
    if n - lo < 24 {
        return n - lo;
    }
    24
}

// The m cells at a gain factor × G for each G by rising index: its cells of row i from column lo on, which are made in the row that is lent.
pub fn gain_sigma(
    work: &mut [f64],
    a: usize,
    row: &mut [f64],
    design: &CovarianceDesign,
    theta: [f64; 3],
    i: usize,
    lo: usize,
    m: usize,
)
    requires m_in_bounds { (a + m ≤ length work.old) × (m ≤ length row.old) × (lo + m ≤ design.now.specimens) }
    requires lent { Lent design.now × (i < design.now.specimens) }
    ensures { work.new ≡ put_row a m (λ j. fold 0 (places_before design.now.blocks design.now.count + 1) (λ r y. floats.plus y (floats.times (factor (lent_design design.now theta) r) (g_cell (lent_design design.now theta) r i (lo + j)))) (get_or work.old (a + j) nan)) work.old }
{
    let last = adjustment_covariance::blocks::places_before(design.blocks, design.count);
    for r in 0..last + 1 {
        g_row(row, 0, m, design, lo, r, i);
        let f = factor(design.blocks, design.count, theta, r);
        algebra_large_products::narrow::gain_from(work, a, row, 0, m, f);
    }
}

// m cells of row i of Σ from column lo on, at a.
pub fn sigma_part(
    work: &mut [f64],
    a: usize,
    design: &CovarianceDesign,
    theta: [f64; 3],
    i: usize,
    lo: usize,
    m: usize,
)
    requires m_in_bounds { (a + m ≤ length work.old) × (m ≤ 24) × (lo + m ≤ design.now.specimens) }
    requires lent { Lent design.now × (i < design.now.specimens) }
    ensures { work.new ≡ put_row a m (λ j. sigma_cell (lent_design design.now theta) i (lo + j)) work.old }
{
    let mut row = [0.0; 24];
    algebra_large::rows::clear_row(work, a, m);
    gain_sigma(work, a, &mut row, design, theta, i, lo, m);
}

// Row i of Σ, at a.
pub fn sigma_row(work: &mut [f64], a: usize, design: &CovarianceDesign, theta: [f64; 3], i: usize)
    requires { (a + design.now.specimens ≤ length work.old) × Lent design.now × (i < design.now.specimens) }
    ensures { work.new ≡ put_row a design.now.specimens (sigma_cell (lent_design design.now theta) i) work.old }
{
    let n = design.specimens;
    let mut lo = 0;
    while lo < n {
        let m = part(n, lo);
        sigma_part(work, a + lo, design, theta, i, lo, m);
        lo = lo + m;
    }
}

// The matrix at d becomes Σ.
pub fn build_sigma_g(
    work: &mut [f64],
    d: usize,
    s: usize,
    design: &CovarianceDesign,
    theta: [f64; 3],
)
    requires { Holds s d design.now.specimens design.now.specimens (length work.old) × Lent design.now }
    ensures { work.new ≡ put_rows s d design.now.specimens design.now.specimens (sigma_rows (lent_design design.now theta)) work.old }
{
    let n = design.specimens;
    for i in 0..n {
        let a = algebra_large::rows::start(d, s, i, n, n, work.len());
        sigma_row(work, a, design, theta, i);
    }
}

// The row at a gains, for each k < m by rising index, cell k of the row that is lent times row k of the matrix at q.
pub fn gain_cells(work: &mut [f64], a: usize, row: &[f64], q: usize, s: usize, n: usize, m: usize)
    requires { (a + n ≤ length work.old) × Holds s q m n (length work.old) × Apart a n q (m * s) × (m ≤ length row.now) }
    ensures { work.new ≡ put_row a n (λ j. gained_with m (λ k. get_or row.now k nan) work.old q s (get_or work.old (a + j) nan) j) work.old }
{
    for k in 0..m {
        let b = algebra_large::rows::start(q, s, k, m, n, work.len());
        let f = row[k];
        algebra_large::rows::gain_row(work, a, b, n, f);
    }
}

// The row at a gains, for each k < m by rising index, cell (i, lo + k) of G_r times row lo + k of the matrix at q.
pub fn gain_part(
    work: &mut [f64],
    a: usize,
    q: usize,
    s: usize,
    design: &CovarianceDesign,
    r: usize,
    i: usize,
    lo: usize,
    m: usize,
)
    requires n_in_bounds { (a + design.now.specimens ≤ length work.old) × Holds s q design.now.specimens design.now.specimens (length work.old) × Apart a design.now.specimens q (design.now.specimens * s) × (m ≤ 24) × (lo + m ≤ design.now.specimens) × (lo < design.now.specimens) }
    requires lent { Lent design.now × (r ≤ places_before design.now.blocks design.now.count) × (i < design.now.specimens) }
    ensures { work.new ≡ put_row a design.now.specimens (λ j. gained_with m (λ k. g_cell (lent_design design.now []) r i (lo + k)) work.old (q + lo * s) s (get_or work.old (a + j) nan) j) work.old }
{
    let n = design.specimens;
    let mut row = [0.0; 24];
    g_row(&mut row, 0, m, design, lo, r, i);
    let b = algebra_large::rows::start(q, s, lo, n, n, work.len());
    gain_cells(work, a, &row, b, s, n, m);
}

// The row at a gains, for each k by rising index, cell (i, k) of G_r times row k of the matrix at q.
pub fn gain_g(
    work: &mut [f64],
    a: usize,
    q: usize,
    s: usize,
    design: &CovarianceDesign,
    r: usize,
    i: usize,
)
    requires n_in_bounds { (a + design.now.specimens ≤ length work.old) × Holds s q design.now.specimens design.now.specimens (length work.old) × Apart a design.now.specimens q (design.now.specimens * s) }
    requires lent { Lent design.now × (r ≤ places_before design.now.blocks design.now.count) × (i < design.now.specimens) }
    ensures { work.new ≡ put_row a design.now.specimens (λ j. gained_with design.now.specimens (g_cell (lent_design design.now []) r i) work.old q s (get_or work.old (a + j) nan) j) work.old }
{
    let n = design.specimens;
    let mut lo = 0;
    while lo < n {
        let m = part(n, lo);
        gain_part(work, a, q, s, design, r, i, lo, m);
        lo = lo + m;
    }
}

// Row i of G_r S, at a, with S at q.
pub fn h_row(
    work: &mut [f64],
    a: usize,
    q: usize,
    s: usize,
    design: &CovarianceDesign,
    r: usize,
    i: usize,
)
    requires n_in_bounds { (a + design.now.specimens ≤ length work.old) × Holds s q design.now.specimens design.now.specimens (length work.old) × Apart a design.now.specimens q (design.now.specimens * s) }
    requires lent { Lent design.now × (r ≤ places_before design.now.blocks design.now.count) × (i < design.now.specimens) }
    ensures { work.new ≡ put_row a design.now.specimens (gained_with design.now.specimens (g_cell (lent_design design.now []) r i) work.old q s plus_zero) work.old }
{
    let n = design.specimens;
    algebra_large::rows::clear_row(work, a, n);
    gain_g(work, a, q, s, design, r, i);
}

// The matrix at d becomes H_r, with S at q.
pub fn fill_h(work: &mut [f64], d: usize, q: usize, s: usize, design: &CovarianceDesign, r: usize)
    requires holds { Holds s d design.now.specimens design.now.specimens (length work.old) × Holds s q design.now.specimens design.now.specimens (length work.old) × Apart d (design.now.specimens * s) q (design.now.specimens * s) }
    requires lent { Lent design.now × (r ≤ places_before design.now.blocks design.now.count) }
    ensures { work.new ≡ put_rows s d design.now.specimens design.now.specimens (h_rows design.now.specimens (g_rows (lent_design design.now []) r) (rows_at s q design.now.specimens design.now.specimens work.old)) work.old }
{
    let n = design.specimens;
    for i in 0..n {
        let a = algebra_large::rows::start(d, s, i, n, n, work.len());
        h_row(work, a, q, s, design, r, i);
    }
}
