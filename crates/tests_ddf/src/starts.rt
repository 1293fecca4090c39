// The marked matrices that a test starts from.
ghost use Rattle.std.specs.Prelude.{◌≡◌, ◌≤◌};
ghost use Rattle.algebra.specs.Kind.{marks};
ghost use Rattle.algebra.specs.Product.{product};
ghost use Rattle.tests.specs.Satterthwaite.{column, contrast_of, transformed, transformed_all};
ghost use Rattle.tests_ddf.specs.joints.Parts.{start_seen_of};

use algebra_products::cells::{all_marks, given_cells};
use algebra_products::{minus_cells, product, sandwich, zeros};
use arithmetic::Marked;
use arithmetic_steps::given;
use tests::both::stack_seen;

// b as a column.
pub fn column(b: [f64; 6], p: usize) -> [[Marked; 6]; 6]
    requires { p ≤ 6 }
    ensures { result ≡ column marks p b }
{
    let mut out = zeros();
    for i in 0..p {
        out[i][0] = given(b[i]);
    }
    out
}

// Lb.
pub fn applied(l: [[Marked; 6]; 6], b: [f64; 6], p: usize, q: usize) -> [[Marked; 6]; 6]
    requires { (p ≤ 6) × (q ≤ 6) }
    ensures { result ≡ product marks 6 6 q p 1 l (column marks p b) }
{
    let b = column(b, p);
    product(l, b, q, p, 1)
}

// LβD = Lβ − Lβ_H.
pub fn contrast_of(
    l: [[Marked; 6]; 6],
    beta: [f64; 6],
    beta_h: [f64; 6],
    p: usize,
    q: usize,
) -> [[Marked; 6]; 6]
    requires { (p ≤ 6) × (q ≤ 6) }
    ensures { result ≡ contrast_of marks p q l beta beta_h }
{
    let first = applied(l, beta, p, q);
    let second = applied(l, beta_h, p, q);
    minus_cells(first, second, q, 1)
}

// L m Lᵀ.
pub fn transformed(l: [[Marked; 6]; 6], m: [[f64; 6]; 6], p: usize, q: usize) -> [[Marked; 6]; 6]
    requires { (p ≤ 6) × (q ≤ 6) }
    ensures { result ≡ transformed marks p q l m }
{
    let inner = given_cells(m, p, p);
    sandwich(l, inner, q, p)
}

// Each of n Jacobians likewise.
pub fn transform_contrast(
    l: [[Marked; 6]; 6],
    js: &[[[f64; 6]; 6]; 4],
    n: usize,
    p: usize,
    q: usize,
) -> [[[Marked; 6]; 6]; 4]
    requires { (n ≤ 4) × (p ≤ 6) × (q ≤ 6) }
    ensures { result ≡ transformed_all marks n p q l js.now }
{
    let blank = zeros();
    let mut out = [blank; 4];
    for i in 0..n {
        let m = js[i];
        let turned = transformed(l, m, p, q);
        out[i] = turned;
    }
    out
}

// What a contrast of q rows makes of what is sent: LβD and V = LvLᵀ, beside a J for each of n Jacobians.
#[derive(Clone, Copy)]
pub struct Contrasted {
    pub n: usize,
    pub q: usize,
    pub ld: [[Marked; 6]; 6],
    pub v: [[Marked; 6]; 6],
}

// The marks of LβD, V and every J.
pub fn start_seen(t: &Contrasted, js: &[[[Marked; 6]; 6]; 4]) -> Marked
    requires { (t.now.n ≤ 4) × (t.now.q ≤ 6) }
    ensures { result ≡ start_seen_of t.now.n t.now.q t.now.ld t.now.v js.now }
{
    let q = t.q;
    let first = all_marks(t.ld, q, 1, given(0.0));
    let second = all_marks(t.v, q, q, first);
    stack_seen(js, t.n, q, second)
}
