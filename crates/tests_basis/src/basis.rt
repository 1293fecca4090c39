// The contrast basis: rows of unit length that span those of the contrast, by rotations of row pairs.
ghost use Rattle.std.specs.Prelude.{◌≡◌, cond, ◌+◌, ◌<◌, ◌≤◌, min, max, get_or};
ghost use Rattle.std.specs.Float.{binary64};
ghost use Rattle.std.specs.Float.Ieee.{mul, div, lt};
ghost use Rattle.arithmetic.specs.Numbers.{plus_zero};
ghost use Rattle.algebra.specs.Fold.{fold};
ghost use Rattle.algebra.specs.Table.{row};
ghost use Rattle.algebra.specs.Kind.{floats, marks};
ghost use Rattle.algebra.specs.Product.{at, sum};
ghost use Rattle.algebra.specs.Jacobi.{ratio, tangent, turned_first, turned_second};
ghost use Rattle.tests.specs.Order.{index_at};
ghost use Rattle.tests.specs.Basis.{largest, divided_cell, divided, pairs_to, sweep_to, sweeps_to, norms, singular, tolerance, rank_of, basis_rows, contrast_basis};

use arithmetic::Marked;
use arithmetic::plain::{is_zero, magnitude, of_count};
use arithmetic::root::sqrt;
use arithmetic_steps::given;
use tests::Basis;
use tests_falling_order::index_at;

// 2^-52, the distance from 1 to the next number.
const EPSILON: f64 = 2.220446049250313e-16;

// v where it is larger than s.
fn larger(s: f64, v: f64) -> f64
    ensures { result ≡ cond (lt s v) v s }
{
    if s < v { v } else { s }
}

// The largest magnitude of a row of p cells.
pub fn largest(p: usize, row: [f64; 6]) -> f64
    requires { p ≤ 6 }
    ensures { result ≡ largest p row }
{
    let mut most = 0.0;
    for j in 0..p {
        most = larger(most, magnitude(row[j]));
    }
    most
}

// A cell of the contrast over its row's largest magnitude. A zero row stays.
pub fn divided_cell(p: usize, l: [[f64; 6]; 6], i: usize, j: usize) -> Marked
    requires { (p ≤ 6) × (i < 6) × (j < 6) }
    ensures { result ≡ divided_cell marks p l i j }
{
    let scale = largest(p, l[i]);
    let x = given(l[i][j]);
    if 0.0 < scale {
        return arithmetic_steps::div(x, given(scale));
    }
    x
}

pub fn divided(rows: usize, p: usize, l: [[f64; 6]; 6]) -> [[Marked; 6]; 6]
    requires { (rows ≤ 6) × (p ≤ 6) }
    ensures { result ≡ divided marks rows p l }
{
    let mut out = algebra_products::zeros();
    for i in 0..rows {
        for j in 0..p {
            out[i][j] = divided_cell(p, l, i, j);
        }
    }
    out
}

// The dot product of two rows of p cells.
pub fn row_dot(p: usize, x: [f64; 6], y: [f64; 6]) -> f64
    requires { p ≤ 6 }
    ensures { result ≡ sum floats p (λ k. mul binary64 (get_or x k floats.void) (get_or y k floats.void)) }
{
    let mut sum = 0.0;
    for k in 0..p {
        sum = sum + x[k] * y[k];
    }
    sum
}

// Two rows turned by c and s, both from the old two.
fn turned(p: usize, x: [f64; 6], y: [f64; 6], c: f64, s: f64) -> ([f64; 6], [f64; 6])
    requires { p ≤ 6 }
    ensures first { result.0 ≡ row plus_zero 6 p (λ k. turned_first floats c s (get_or x k floats.void) (get_or y k floats.void)) }
    ensures second { result.1 ≡ row plus_zero 6 p (λ k. turned_second floats c s (get_or x k floats.void) (get_or y k floats.void)) }
{
    let mut first = [0.0; 6];
    let mut second = [0.0; 6];
    for k in 0..p {
        first[k] = algebra_rotation::turned_first(c, s, x[k], y[k]);
        second[k] = algebra_rotation::turned_second(c, s, x[k], y[k]);
    }
    (first, second)
}

// The tangent of the rotation that makes rows x and y orthogonal, from their dot product g.
fn pair_tangent(p: usize, x: [f64; 6], y: [f64; 6], g: f64) -> f64
    requires { p ≤ 6 }
    ensures { result ≡ tangent floats (ratio floats (sum floats p (λ k. mul binary64 (get_or x k floats.void) (get_or x k floats.void))) (sum floats p (λ k. mul binary64 (get_or y k floats.void) (get_or y k floats.void))) g) }
{
    algebra_rotation::tangent(algebra_rotation::ratio(row_dot(p, x, x), row_dot(p, y, y), g))
}

// The pairs of row i. A pair is turned unless its dot product is zero, and both rows come from the old two. Only rows are copied for it.
pub fn pairs(rows: usize, p: usize, i: usize, m: [[f64; 6]; 6]) -> [[f64; 6]; 6]
    requires { (rows ≤ 6) × (p ≤ 6) × (i < rows) }
    ensures { result ≡ pairs_to rows p i m }
{
    let mut out = m;
    for j in i + 1..rows {
        let x = out[i];
        let y = out[j];
        let g = row_dot(p, x, y);
        if !is_zero(g) {
            let t = pair_tangent(p, x, y, g);
            let c = algebra_rotation::cosine(t);
            let s = algebra_rotation::sine(t, c);
            let (first, second) = turned(p, x, y, c, s);
            out[i] = first;
            out[j] = second;
        }
    }
    out
}

// A sweep over all pairs.
pub fn sweep(rows: usize, p: usize, m: [[f64; 6]; 6]) -> [[f64; 6]; 6]
    requires { (rows ≤ 6) × (p ≤ 6) }
    ensures { result ≡ sweep_to rows rows p m }
{
    let mut out = m;
    for i in 0..rows {
        let next = pairs(rows, p, i, out);
        out = next;
    }
    out
}

// The 30 sweeps, whether or not the last ones still turn a pair.
pub fn sweeps(rows: usize, p: usize, m: [[f64; 6]; 6]) -> [[f64; 6]; 6]
    requires { (rows ≤ 6) × (p ≤ 6) }
    ensures { result ≡ sweeps_to 30 rows p m }
{
    let mut out = m;
    for i in 0..30usize {
        let next = sweep(rows, p, out);
        out = next;
    }
    out
}

// The lengths of the rows.
pub fn norms(rows: usize, p: usize, m: [[f64; 6]; 6]) -> [f64; 6]
    requires { (rows ≤ 6) × (p ≤ 6) }
    ensures { result ≡ norms rows p m }
{
    let mut out = [0.0; 6];
    for i in 0..rows {
        let x = m[i];
        out[i] = sqrt(row_dot(p, x, x));
    }
    out
}

// The singular value in place k.
pub fn singular(rows: usize, ns: [f64; 6], k: usize) -> f64
    requires { rows ≤ 6 }
    ensures { result ≡ singular rows ns k }
{
    let i = index_at(rows, ns, k);
    ns[i]
}

// A singular value counts where it is above this.
pub fn tolerance(rows: usize, p: usize, ns: [f64; 6]) -> f64
    requires { (rows ≤ 6) × (p ≤ 6) }
    ensures { result ≡ tolerance rows p ns }
{
    EPSILON * of_count(rows.max(p)) * singular(rows, ns, 0)
}

// How many of the first n singular values are above the limit.
fn above(limit: f64, n: usize, rows: usize, ns: [f64; 6]) -> usize
    requires { (n ≤ 6) × (rows ≤ 6) }
    ensures { (result ≡ fold 0 n (λ k s. cond (lt limit (singular rows ns k)) (s + 1) s) 0) × (result ≤ 6) }
{
    let mut count = 0;
    for k in 0..n {
        if limit < singular(rows, ns, k) {
            count += 1;
        }
    }
    count
}

// The rank: no more than min(rows, columns) singular values are looked at.
pub fn rank_of(rows: usize, p: usize, ns: [f64; 6]) -> usize
    requires { (rows ≤ 6) × (p ≤ 6) }
    ensures { (result ≡ rank_of rows p ns) × (result ≤ 6) }
{
    let limit = tolerance(rows, p, ns);
    above(limit, rows.min(p), rows, ns)
}

// A row of p cells over its norm.
fn over_norm(p: usize, x: [f64; 6], norm: f64) -> [f64; 6]
    requires { p ≤ 6 }
    ensures { result ≡ row plus_zero 6 p (λ j. div binary64 (get_or x j floats.void) norm) }
{
    let mut out = [0.0; 6];
    for j in 0..p {
        out[j] = x[j] / norm;
    }
    out
}

// The row in place k, over its norm: where it stands is looked up once.
fn basis_row(rows: usize, p: usize, m: [[f64; 6]; 6], ns: [f64; 6], k: usize) -> [f64; 6]
    requires { (rows ≤ 6) × (p ≤ 6) }
    ensures { result ≡ row plus_zero 6 p (λ j. div binary64 (at floats m (index_at rows ns k) j) (singular rows ns k)) }
{
    let i = index_at(rows, ns, k);
    let x = m[i];
    let norm = ns[i];
    over_norm(p, x, norm)
}

// The rows of the first `rank` singular values, over their norms.
pub fn basis_rows(
    rows: usize,
    p: usize,
    rank: usize,
    m: [[f64; 6]; 6],
    ns: [f64; 6],
) -> [[f64; 6]; 6]
    requires { (rows ≤ 6) × (p ≤ 6) × (rank ≤ 6) }
    ensures { result ≡ basis_rows rows p rank m ns }
{
    let mut out = algebra_products::zeros();
    for k in 0..rank {
        out[k] = basis_row(rows, p, m, ns, k);
    }
    out
}

// The basis of the contrast l.
pub fn contrast_basis(l: [[f64; 6]; 6], rows: usize, p: usize) -> Basis<Marked>
    requires { (rows ≤ 6) × (p ≤ 6) }
    ensures { (result ≡ contrast_basis marks rows p l) × (result.rank ≤ 6) }
{
    let d = divided(rows, p, l);
    let seen = algebra_products::cells::all_marks(d, rows, p, given(0.0));
    let m = algebra_products::cells::values(d, rows, p);
    if rows == 1 {
        return Basis {
            rows: m,
            rank: 1,
            seen,
        };
    }
    let turned = sweeps(rows, p, m);
    let ns = norms(rows, p, turned);
    let rank = rank_of(rows, p, ns);
    let unit_rows = basis_rows(rows, p, rank, turned, ns);
    Basis {
        rows: unit_rows,
        rank,
        seen,
    }
}
