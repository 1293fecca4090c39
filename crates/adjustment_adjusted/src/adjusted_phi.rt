// U, the sum of its terms, and Φ_A.
ghost use Rattle.std.specs.Prelude.{◌≡◌, ◌+◌, ◌<◌, ◌≤◌};
ghost use Rattle.algebra.specs.Fold.{fold};
ghost use Rattle.algebra.specs.Kind.{floats};
ghost use Rattle.algebra.specs.Product.{plus_cells};
ghost use Rattle.adjustment.specs.Adjusted.{u_term_at, u_above, u_rows, phi_a_rows};

use crate::u_terms::u_term_at;
use algebra_products::{plus_cells, product, times_number, transpose, zeros};

// The terms of r with each s above it, added to u: W_rs is read above the diagonal.
pub fn u_row(
    p: usize,
    n: usize,
    phi: [[f64; 6]; 6],
    ps: [[[f64; 6]; 6]; 4],
    qs: [[[f64; 6]; 6]; 10],
    w: [[f64; 6]; 6],
    r: usize,
    u: [[f64; 6]; 6],
) -> [[f64; 6]; 6]
    requires { (p ≤ 6) × (n ≤ 4) × (r < n) }
    ensures { result ≡ fold (r + 1) n (λ s u. plus_cells floats 6 6 p p u (u_term_at p n phi ps qs w r s)) u }
{
    let mut out = u;
    for s in r + 1..n {
        let weight = w[r][s];
        let term = u_term_at(p, n, phi, ps, qs, weight, r, s);
        let next = plus_cells(out, term, p, p);
        out = next;
    }
    out
}

// The terms with r < s.
pub fn u_above(
    p: usize,
    n: usize,
    phi: [[f64; 6]; 6],
    ps: [[[f64; 6]; 6]; 4],
    qs: [[[f64; 6]; 6]; 10],
    w: [[f64; 6]; 6],
) -> [[f64; 6]; 6]
    requires { (p ≤ 6) × (n ≤ 4) }
    ensures { result ≡ u_above p n phi ps qs w n }
{
    let mut out = zeros();
    for r in 0..n {
        let next = u_row(p, n, phi, ps, qs, w, r, out);
        out = next;
    }
    out
}

// The terms with r = s, added to u once each and whole.
pub fn u_diagonal(
    p: usize,
    n: usize,
    phi: [[f64; 6]; 6],
    ps: [[[f64; 6]; 6]; 4],
    qs: [[[f64; 6]; 6]; 10],
    w: [[f64; 6]; 6],
    u: [[f64; 6]; 6],
) -> [[f64; 6]; 6]
    requires { (p ≤ 6) × (n ≤ 4) }
    ensures { result ≡ fold 0 n (λ r u. plus_cells floats 6 6 p p u (u_term_at p n phi ps qs w r r)) u }
{
    let mut out = u;
    for r in 0..n {
        let weight = w[r][r];
        let term = u_term_at(p, n, phi, ps, qs, weight, r, r);
        let next = plus_cells(out, term, p, p);
        out = next;
    }
    out
}

// U: the terms with r < s, their transpose, then the terms with r = s.
pub fn u_of(
    p: usize,
    n: usize,
    phi: [[f64; 6]; 6],
    ps: [[[f64; 6]; 6]; 4],
    qs: [[[f64; 6]; 6]; 10],
    w: [[f64; 6]; 6],
) -> [[f64; 6]; 6]
    requires { (p ≤ 6) × (n ≤ 4) }
    ensures { result ≡ u_rows p n phi ps qs w }
{
    let above = u_above(p, n, phi, ps, qs, w);
    let below = transpose(above, p, p);
    let both = plus_cells(above, below, p, p);
    u_diagonal(p, n, phi, ps, qs, w, both)
}

// Φ_A = Φ + ((ΦU)Φ) × 2.
pub fn phi_a(p: usize, phi: [[f64; 6]; 6], u: [[f64; 6]; 6]) -> [[f64; 6]; 6]
    requires { p ≤ 6 }
    ensures { result ≡ phi_a_rows p phi u }
{
    let left = product(phi, u, p, p, p);
    let gamma = product(left, phi, p, p, p);
    let twice = times_number(gamma, 2.0, p, p);
    plus_cells(phi, twice, p, p)
}
