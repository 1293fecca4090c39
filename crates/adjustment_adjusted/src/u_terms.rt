// The terms of U, from the Ps, the packed Qs and W.
ghost use Rattle.std.specs.Prelude.{◌≡◌, ◌<◌, ◌≤◌};
ghost use Rattle.adjustment.specs.Information.{packed};
ghost use Rattle.adjustment.specs.Adjusted.{matrix_at, u_term};

use adjustment::packing::index_symmat2vec;
use algebra_products::{minus_cells, product, times_number};

// (Q_rs − (P_r Φ) P_s) × W_rs.
pub fn u_term(
    p: usize,
    phi: [[f64; 6]; 6],
    q: [[f64; 6]; 6],
    pr: [[f64; 6]; 6],
    ps: [[f64; 6]; 6],
    w: f64,
) -> [[f64; 6]; 6]
    requires { p ≤ 6 }
    ensures { result ≡ u_term p phi q pr ps w }
{
    let left = product(pr, phi, p, p, p);
    let known = product(left, ps, p, p, p);
    let rest = minus_cells(q, known, p, p);
    times_number(rest, w, p, p)
}

// The term of r and s, by their Ps, their packed Q and their weight.
pub fn u_term_at(
    p: usize,
    n: usize,
    phi: [[f64; 6]; 6],
    ps: [[[f64; 6]; 6]; 4],
    qs: [[[f64; 6]; 6]; 10],
    weight: f64,
    r: usize,
    s: usize,
) -> [[f64; 6]; 6]
    requires { (p ≤ 6) × (n ≤ 4) × (r < n) × (s < n) }
    ensures { result ≡ u_term p phi (matrix_at qs (packed n r s)) (matrix_at ps r) (matrix_at ps s) weight }
{
    let at = index_symmat2vec(r, s, n);
    let q = qs[at];
    let first = ps[r];
    let second = ps[s];
    u_term(p, phi, q, first, second, weight)
}
