// The components of a test of several rows: eigenvalues in falling order, and what belongs to each.
ghost use Rattle.std.specs.Prelude.{◌≡◌, [], ◌≤◌, ◌<◌, get_or};
ghost use Rattle.arithmetic.specs.Numbers.{plus_zero};
ghost use Rattle.arithmetic.specs.Marks.{given, marked_mul, marked_div};
ghost use Rattle.algebra.specs.Table.{row};
ghost use Rattle.algebra.specs.Kind.{marks};
ghost use Rattle.algebra.specs.Product.{at, sum, cell};
ghost use Rattle.std.specs.Prelude.{Some};
ghost use Rattle.tests.specs.Answer.{float_of};
ghost use Rattle.tests.specs.Order.{index_at};
ghost use Rattle.tests.specs.VarianceDf.{entry_at, gradient_seen};
ghost use Rattle.tests.specs.Satterthwaite.{eigenvalues, not_positive, variances_of, directions_of, projected, squares_over, jx_all, gradient_at, capped, component_df, component_dfs, any_none, several_df, components_seen};

use crate::pooled::{get_fstat_ddf, tolerance};
use crate::variance::{gradient_seen, no_marks, variance_df};
use algebra_products::{cell, product, transpose, zeros};
use arithmetic::Marked;
use arithmetic::plain::{is_nan, of_count};
use arithmetic_cutoffs::Cutoffs;
use arithmetic_steps::{add, div, given, mul, zero_of};
use tests::both::is_positive;
use tests::number_of;
use tests_falling_order::index_at;

// The diagonal that Jacobi ends with.
pub fn eigenvalues(d: [[Marked; 6]; 6], q: usize) -> [f64; 6]
    requires { q ≤ 6 }
    ensures { result ≡ eigenvalues marks q d }
{
    let mut out = [0.0; 6];
    for i in 0..q {
        let number = d[i][i];
        out[i] = number.value;
    }
    out
}

// Whether any eigenvalue is not finite or not above zero.
pub fn not_positive(es: [f64; 6], q: usize) -> bool
    requires { q ≤ 6 }
    ensures { result ≡ not_positive q es }
{
    let mut any = false;
    for i in 0..q {
        any = any | !is_positive(es[i]);
    }
    any
}

// The eigenvalue in place k.
pub fn variance_at(d: [[Marked; 6]; 6], es: [f64; 6], q: usize, k: usize) -> Marked
    requires { q ≤ 6 }
    ensures { result ≡ at marks d (index_at q es k) (index_at q es k) }
{
    let i = index_at(q, es, k);
    d[i][i]
}

// The eigenvalues in falling order.
pub fn variances_of(d: [[Marked; 6]; 6], es: [f64; 6], q: usize) -> [Marked; 6]
    requires { q ≤ 6 }
    ensures { result ≡ variances_of marks q es d }
{
    let mut out = no_marks();
    for k in 0..q {
        out[k] = variance_at(d, es, q, k);
    }
    out
}

// A cell of the eigenvector in place k.
pub fn direction_cell(v: [[Marked; 6]; 6], es: [f64; 6], q: usize, r: usize, k: usize) -> Marked
    requires { (q ≤ 6) × (r < 6) }
    ensures { result ≡ at marks v r (index_at q es k) }
{
    let i = index_at(q, es, k);
    v[r][i]
}

// The eigenvectors as columns, in the order of their eigenvalues.
pub fn directions_of(v: [[Marked; 6]; 6], es: [f64; 6], q: usize) -> [[Marked; 6]; 6]
    requires { q ≤ 6 }
    ensures { result ≡ directions_of marks q es v }
{
    let mut out = zeros();
    for r in 0..q {
        for k in 0..q {
            out[r][k] = direction_cell(v, es, q, r, k);
        }
    }
    out
}

// x·LβD for each eigenvector x.
pub fn projected(x: [[Marked; 6]; 6], ld: [[Marked; 6]; 6], q: usize) -> [[Marked; 6]; 6]
    requires { q ≤ 6 }
    ensures { result ≡ projected marks q x ld }
{
    let turned = transpose(x, q, q);
    product(turned, ld, q, q, 1)
}

// What component k adds to F.
pub fn square_over(y: [[Marked; 6]; 6], es: [Marked; 6], k: usize) -> Marked
    requires { k < 6 }
    ensures { result ≡ marked_div (marked_mul (at marks y k 0) (at marks y k 0)) (entry_at marks es k) }
{
    div(mul(y[k][0], y[k][0]), es[k])
}

// The sum of what the components add to F.
pub fn squares_sum(y: [[Marked; 6]; 6], es: [Marked; 6], q: usize) -> Marked
    requires { q ≤ 6 }
    ensures { result ≡ sum marks q (λ k. marked_div (marked_mul (at marks y k 0) (at marks y k 0)) (entry_at marks es k)) }
{
    let mut sum = zero_of();
    for k in 0..q {
        sum = add(sum, square_over(y, es, k));
    }
    sum
}

// F of several rows.
pub fn squares_over(y: [[Marked; 6]; 6], es: [Marked; 6], q: usize) -> Marked
    requires { q ≤ 6 }
    ensures { result ≡ squares_over marks q y es }
{
    div(squares_sum(y, es, q), given(of_count(q)))
}

// Jx for each eigenvector x, of n Jacobians.
pub fn jx_all(
    js: &[[[Marked; 6]; 6]; 4],
    x: [[Marked; 6]; 6],
    n: usize,
    q: usize,
) -> [[[Marked; 6]; 6]; 4]
    requires { (n ≤ 4) × (q ≤ 6) }
    ensures { result ≡ jx_all marks n q js.now x }
{
    let blank = zeros();
    let mut out = [blank; 4];
    for i in 0..n {
        let m = js[i];
        let turned = product(m, x, q, q, q);
        out[i] = turned;
    }
    out
}

// x·(Jx) of component k, for Jacobian i; xt holds the eigenvectors as rows.
pub fn qform(
    xt: [[Marked; 6]; 6],
    jx: &[[[Marked; 6]; 6]; 4],
    q: usize,
    i: usize,
    k: usize,
) -> Marked
    requires { (q ≤ 6) × (i < 4) × (k < 6) }
    ensures { result ≡ cell marks q xt (get_or jx.now i []) k k }
{
    let m = jx[i];
    cell(xt, m, q, k, k)
}

// The components of a test of several rows, q of them, of n parameters: their eigenvalues, and the eigenvectors x as columns.
#[derive(Clone, Copy)]
pub struct Components {
    pub n: usize,
    pub q: usize,
    pub es: [Marked; 6],
    pub x: [[Marked; 6]; 6],
}

// The numbers x·(Jx) of component k.
pub fn gradient_of(
    xt: [[Marked; 6]; 6],
    jx: &[[[Marked; 6]; 6]; 4],
    n: usize,
    q: usize,
    k: usize,
) -> [Marked; 6]
    requires { (n ≤ 4) × (q ≤ 6) × (k < 6) }
    ensures { result ≡ row (given plus_zero) 6 n (λ i. cell marks q xt (get_or jx.now i []) k k) }
{
    let mut out = no_marks();
    for i in 0..n {
        out[i] = qform(xt, jx, q, i, k);
    }
    out
}

// The gradient of the eigenvalue in place k.
pub fn gradient_at(w: &Components, jx: &[[[Marked; 6]; 6]; 4], k: usize) -> [Marked; 6]
    requires { (w.now.n ≤ 4) × (w.now.q ≤ 6) × (k < 6) }
    ensures { result ≡ gradient_at marks w.now.n w.now.q w.now.x jx.now k }
{
    let turned = transpose(w.x, w.q, w.q);
    gradient_of(turned, jx, w.n, w.q, k)
}

// The cap of a df that is a number.
pub fn capped_at(c: Cutoffs, x: f64) -> f64
    ensures { Some result ≡ capped c (Some x) }
{
    if c.cap < x { c.cap } else { x }
}

// A component's df is capped; one row's is not.
pub fn capped(c: Cutoffs, df: Option<f64>) -> Option<f64>
    ensures { result ≡ capped c df }
{
    Some(capped_at(c, df?))
}

// The f64 that stands for a number: a NaN for none.
pub fn float_of(x: Option<f64>) -> f64
    ensures { result ≡ float_of x }
{
    x.unwrap_or(0.0 / 0.0)
}

// The df of component k.
pub fn component_df(
    c: Cutoffs,
    a: [[f64; 6]; 6],
    w: &Components,
    jx: &[[[Marked; 6]; 6]; 4],
    k: usize,
) -> Option<f64>
    requires { (w.now.n ≤ 4) × (w.now.q ≤ 6) × (k < 6) }
    ensures { result ≡ component_df marks c w.now.n w.now.q a w.now.es w.now.x jx.now k }
{
    let gradient = gradient_at(w, jx, k);
    let df = variance_df(w.es[k], gradient, a, w.n);
    capped(c, df)
}

// The df of every component, a NaN for none.
pub fn component_dfs(
    c: Cutoffs,
    a: [[f64; 6]; 6],
    w: &Components,
    jx: &[[[Marked; 6]; 6]; 4],
) -> [f64; 6]
    requires { (w.now.n ≤ 4) × (w.now.q ≤ 6) }
    ensures { result ≡ component_dfs marks c w.now.n w.now.q a w.now.es w.now.x jx.now }
{
    let mut out = [0.0; 6];
    for k in 0..w.q {
        out[k] = float_of(component_df(c, a, w, jx, k));
    }
    out
}

// Whether any component has no df.
pub fn any_none(nu: [f64; 6], q: usize) -> bool
    requires { q ≤ 6 }
    ensures { result ≡ any_none q nu }
{
    let mut any = false;
    for k in 0..q {
        any = any | is_nan(nu[k]);
    }
    any
}

// The df of several rows.
pub fn several_df(nu: [f64; 6], q: usize) -> Option<f64>
    requires { q ≤ 6 }
    ensures { result ≡ several_df q nu }
{
    if any_none(nu, q) {
        return None;
    }
    number_of(get_fstat_ddf(nu, q, tolerance()))
}

// The marks of component k.
pub fn component_seen(w: &Components, jx: &[[[Marked; 6]; 6]; 4], k: usize, seen: Marked) -> Marked
    requires { (w.now.n ≤ 4) × (w.now.q ≤ 6) × (k < 6) }
    ensures { result ≡ gradient_seen marks w.now.n (entry_at marks w.now.es k) (gradient_at marks w.now.n w.now.q w.now.x jx.now k) seen }
{
    let gradient = gradient_at(w, jx, k);
    gradient_seen(w.es[k], gradient, w.n, seen)
}

// The marks of all components.
pub fn components_seen(w: &Components, jx: &[[[Marked; 6]; 6]; 4], seen: Marked) -> Marked
    requires { (w.now.n ≤ 4) × (w.now.q ≤ 6) }
    ensures { result ≡ components_seen marks w.now.n w.now.q w.now.es w.now.x jx.now seen }
{
    let mut all = seen;
    for k in 0..w.q {
        all = component_seen(w, jx, k, all);
    }
    all
}
