// The matrix that is inverted for W: IE, with a ridge on its diagonal where its smallest eigenvalue is next to zero.
ghost use Rattle.std.specs.Prelude.{◌≡◌, cond, ◌<◌, ◌≤◌, eqb};
ghost use Rattle.std.specs.Float.{binary64};
ghost use Rattle.std.specs.Float.Ieee.{add, lt};
ghost use Rattle.algebra.specs.Kind.{floats};
ghost use Rattle.algebra.specs.Product.{at};
ghost use Rattle.adjustment.specs.Information.{smallest, ridged, inverted};

use algebra_products::zeros;
use arithmetic::plain::magnitude;
use arithmetic_cutoffs::Cutoffs;

// v in place of s where it is smaller. A NaN is not smaller.
fn smaller(v: f64, s: f64) -> f64
    ensures { result ≡ cond (lt v s) v s }
{
    if v < s { v } else { s }
}

// The smallest magnitude on the diagonal, from infinity.
pub fn smallest(n: usize, m: [[f64; 6]; 6]) -> f64
    requires { n ≤ 6 }
    ensures { result ≡ smallest n m }
{
    let mut least = 1.0 / 0.0;
    for i in 0..n {
        let v = magnitude(m[i][i]);
        least = smaller(v, least);
    }
    least
}

// A cell of IE, with x joined to it on the diagonal.
fn ridged_cell(x: f64, ie: [[f64; 6]; 6], i: usize, j: usize) -> f64
    requires { (i < 6) × (j < 6) }
    ensures { result ≡ cond (eqb i j) (add binary64 (at floats ie i j) x) (at floats ie i j) }
{
    if i == j { ie[i][j] + x } else { ie[i][j] }
}

// IE with the ridge x on its diagonal.
pub fn ridged(x: f64, n: usize, ie: [[f64; 6]; 6]) -> [[f64; 6]; 6]
    requires { n ≤ 6 }
    ensures { result ≡ ridged x n ie }
{
    let mut out = zeros();
    for i in 0..n {
        for j in 0..n {
            out[i][j] = ridged_cell(x, ie, i, j);
        }
    }
    out
}

// The matrix that is inverted: IE itself where its smallest eigenvalue's magnitude is above the cutoff, and with the ridge otherwise.
pub fn inverted(
    cutoffs: Cutoffs,
    n: usize,
    ie: [[f64; 6]; 6],
    eigen: [[f64; 6]; 6],
) -> [[f64; 6]; 6]
    requires { n ≤ 6 }
    ensures { result ≡ inverted cutoffs n ie eigen }
{
    let least = smallest(n, eigen);
    if least > cutoffs.eigenvalue {
        return ie;
    }
    ridged(cutoffs.ridge, n, ie)
}
