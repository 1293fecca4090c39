// Between plain numbers and a kind of number: cells from inputs, values without their marks, the marks of all cells.
ghost use Rattle.std.specs.Prelude.{◌≡◌, ◌≤◌};
ghost use Rattle.algebra.specs.Small.{given_cells, values, all_marks};

use crate::zeros;
use algebra::Matrix;
use algebra::scalar::Scalar;

// Every cell an input: no step led to it.
pub fn given_cells<T: Scalar>(a: Matrix<f64>, rows: usize, cols: usize) -> Matrix<T>
    requires { (rows ≤ 6) × (cols ≤ 6) }
    ensures { result ≡ given_cells T.arith 6 6 rows cols a }
{
    let mut out = zeros();
    for i in 0..rows {
        for j in 0..cols {
            out[i][j] = T::of(a[i][j]);
        }
    }
    out
}

// The values without their marks.
pub fn values<T: Scalar>(a: Matrix<T>, rows: usize, cols: usize) -> Matrix<f64>
    requires { (rows ≤ 6) × (cols ≤ 6) }
    ensures { result ≡ values T.arith 6 6 rows cols a }
{
    let mut out = zeros();
    for i in 0..rows {
        for j in 0..cols {
            out[i][j] = a[i][j].value();
        }
    }
    out
}

// `seen`, with the mark of every cell counted.
pub fn all_marks<T: Scalar>(a: Matrix<T>, rows: usize, cols: usize, seen: T) -> T
    requires { (rows ≤ 6) × (cols ≤ 6) }
    ensures { result ≡ all_marks T.arith rows cols a seen }
{
    let mut all = seen;
    for i in 0..rows {
        for j in 0..cols {
            all = all.also(a[i][j]);
        }
    }
    all
}
