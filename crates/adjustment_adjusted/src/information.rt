// The cells of IE, the expected information of the variance parameters, and W, twice its inverse: n matrices, n at most 4.
ghost use Rattle.std.specs.Prelude.{◌≡◌, ◌≤◌};
ghost use Rattle.std.specs.Float.{binary64};
ghost use Rattle.std.specs.Float.Ieee.{mul};
ghost use Rattle.arithmetic.specs.Numbers.{plus_zero};
ghost use Rattle.algebra.specs.Table.{table};
ghost use Rattle.algebra.specs.Kind.{floats};
ghost use Rattle.algebra.specs.Product.{at};
ghost use Rattle.algebra.specs.Jacobi.{two};
ghost use Rattle.adjustment.specs.Information.{ie_cell, w_rows, w_refused};

use algebra_elimination::inverse;
use algebra_products::{like_cells, product, zeros};

// IE_rs, from K_rs, Φ, Q_rs, P_r and P_s.
pub fn ie_cell(
    p: usize,
    k: f64,
    phi: [[f64; 6]; 6],
    q: [[f64; 6]; 6],
    pr: [[f64; 6]; 6],
    ps: [[f64; 6]; 6],
) -> f64
    requires { p ≤ 6 }
    ensures { result ≡ ie_cell p k phi q pr ps }
{
    let first = like_cells(phi, q, p, p);
    let left = product(phi, pr, p, p, p);
    let right = product(ps, phi, p, p, p);
    let second = like_cells(left, right, p, p);
    (k - 2.0 * first) + second
}

// 2 times each cell.
fn doubled(n: usize, v: [[f64; 6]; 6]) -> [[f64; 6]; 6]
    requires { n ≤ 6 }
    ensures { result ≡ table plus_zero 6 6 n n (λ i j. mul binary64 two (at floats v i j)) }
{
    let mut out = zeros();
    for i in 0..n {
        for j in 0..n {
            out[i][j] = 2.0 * v[i][j];
        }
    }
    out
}

// W = 2 times the inverse. A zero pivot is told by zero_pivot; W is then of no use.
pub fn w_of(n: usize, m: [[f64; 6]; 6], zero_pivot: &mut bool) -> [[f64; 6]; 6]
    requires { n ≤ 6 }
    ensures value { result ≡ w_rows n m }
    ensures zero_pivot_after { zero_pivot.new ≡ w_refused n m }
{
    let v = inverse(m, n);
    *zero_pivot = v.refused;
    doubled(n, v.cells)
}
