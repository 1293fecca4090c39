// The Satterthwaite test, for one contrast row and for several. Everything up to and with g carries its mark.
ghost use Rattle.std.specs.Prelude.{◌≡◌, ◌≤◌};
ghost use Rattle.algebra.specs.Kind.{marks};
ghost use Rattle.algebra.specs.Product.{at};
ghost use Rattle.tests.specs.Satterthwaite.{gradient_one, satterthwaite};
ghost use Rattle.tests_ddf.specs.joints.Parts.{inputs_of, start_seen_of, rotations_seen_of, one_entry_of, components_entry_of, several_entry_of, several_tested_of};

use crate::components::{
    Components, component_dfs, components_seen, directions_of, eigenvalues, jx_all, not_positive,
    projected, several_df, squares_over, variances_of,
};
use crate::starts::{Contrasted, contrast_of, start_seen, transform_contrast, transformed};
use crate::variance::{gradient_seen, no_marks, variance_df};
use algebra_jacobi::jacobi;
use algebra_products::cells::{all_marks, given_cells};
use arithmetic::Marked;
use arithmetic_cutoffs::Cutoffs;
use arithmetic_steps::{also, is_inside};
use tests::both::square_one;
use tests::{Entry, TestInputs, Tested, number_of};

// The gradient of one row's variance.
pub fn gradient_one(js: &[[[Marked; 6]; 6]; 4], n: usize) -> [Marked; 6]
    requires { n ≤ 4 }
    ensures { result ≡ gradient_one marks n js.now }
{
    let mut out = no_marks();
    for i in 0..n {
        let m = js[i];
        out[i] = m[0][0];
    }
    out
}

// The entry of one row.
pub fn one_row(
    a: [[f64; 6]; 6],
    ld: Marked,
    v: Marked,
    gradient: [Marked; 6],
    n: usize,
    q: usize,
    start: Marked,
) -> Entry
    requires { (n ≤ 6) × (q ≤ 6) }
    ensures { result ≡ one_entry_of n q a ld v gradient start }
{
    let f = square_one(ld, v);
    let df = variance_df(v, gradient, a, n);
    let seen = gradient_seen(v, gradient, n, also(start, f));
    Entry {
        f: number_of(f.value),
        df,
        rank: q as u8,
        inside: is_inside(seen),
    }
}

// The entry of several rows, from the components.
pub fn components_entry(
    c: Cutoffs,
    a: [[f64; 6]; 6],
    ld: [[Marked; 6]; 6],
    w: &Components,
    jx: &[[[Marked; 6]; 6]; 4],
    seen: Marked,
) -> Entry
    requires { (w.now.n ≤ 4) × (w.now.q ≤ 6) }
    ensures { result ≡ components_entry_of c w.now.n w.now.q a ld w.now.es w.now.x jx.now seen }
{
    let f = squares_over(projected(w.x, ld, w.q), w.es, w.q);
    let df = several_df(component_dfs(c, a, w, jx), w.q);
    let all = components_seen(w, jx, also(seen, f));
    Entry {
        f: number_of(f.value),
        df,
        rank: w.q as u8,
        inside: is_inside(all),
    }
}

// The entry of several rows, from Jacobi's matrix d and its vectors v.
pub fn several_entry(
    c: Cutoffs,
    a: [[f64; 6]; 6],
    t: &Contrasted,
    js: &[[[Marked; 6]; 6]; 4],
    d: [[Marked; 6]; 6],
    v: [[Marked; 6]; 6],
    seen: Marked,
) -> Entry
    requires { (t.now.n ≤ 4) × (t.now.q ≤ 6) }
    ensures { result ≡ several_entry_of c t.now.n t.now.q a t.now.ld js.now d v seen }
{
    let n = t.n;
    let q = t.q;
    let order = eigenvalues(d, q);
    let es = variances_of(d, order, q);
    let x = directions_of(v, order, q);
    let jx = jx_all(js, x, n, q);
    components_entry(c, a, t.ld, &Components { n, q, es, x }, &jx, seen)
}

// The marks of Jacobi's matrix, its vectors and its rotation tests.
pub fn rotations_seen(
    d: [[Marked; 6]; 6],
    x: [[Marked; 6]; 6],
    q: usize,
    tests: Marked,
    start: Marked,
) -> Marked
    requires { q ≤ 6 }
    ensures { result ≡ rotations_seen_of q d x tests start }
{
    let first = all_marks(d, q, q, start);
    let second = all_marks(x, q, q, first);
    also(second, tests)
}

// Several rows; an eigenvalue that is not finite or not above zero refuses the test.
pub fn several_rows(
    c: Cutoffs,
    a: [[f64; 6]; 6],
    t: &Contrasted,
    js: &[[[Marked; 6]; 6]; 4],
) -> Tested
    requires { (t.now.n ≤ 4) × (t.now.q ≤ 6) }
    ensures { result ≡ several_tested_of c t.now.n t.now.q a t.now.ld t.now.v js.now }
{
    let q = t.q;
    let rotated = jacobi(t.v, q, c.rotation);
    let d = rotated.matrix;
    let x = rotated.vectors;
    let refused = not_positive(eigenvalues(d, q), q);
    let seen = rotations_seen(d, x, q, rotated.seen, start_seen(t, js));
    let entry = several_entry(c, a, t, js, d, x, seen);
    Tested { refused, entry }
}

// The test of q contrast rows, with n parameters. The caller has reduced L to independent rows.
pub fn satterthwaite_contrast_f_test(
    c: Cutoffs,
    s: &TestInputs,
    jac_vcov: &[[[f64; 6]; 6]; 4],
) -> Tested
    requires { (s.now.p ≤ 6) × (s.now.q ≤ 6) × (s.now.n ≤ 4) }
    ensures { result ≡ satterthwaite marks c (inputs_of s.now jac_vcov.now) }
{
    let p = s.p;
    let q = s.q;
    let n = s.n;
    let l = given_cells(s.l, q, p);
    let ld = contrast_of(l, s.beta, s.beta_h, p, q);
    let v = transformed(l, s.v, p, q);
    let js = transform_contrast(l, jac_vcov, n, p, q);
    let t = Contrasted { n, q, ld, v };
    if q == 1 {
        let start = start_seen(&t, &js);
        let gradient = gradient_one(&js, n);
        let entry = one_row(s.a, ld[0][0], v[0][0], gradient, n, q, start);
        return Tested {
            refused: false,
            entry,
        };
    }
    several_rows(c, s.a, &t, &js)
}
