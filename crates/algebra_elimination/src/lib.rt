// A X = B and the inverse, on either kind of number. A and B stand side by side in one matrix: the n columns of A, then those of B.
#![tactic(auto)]

ghost use Rattle.std.specs.Prelude.{◌≡◌, ◌+◌, ◌<◌, ◌≤◌};
ghost use Rattle.algebra.specs.Kind.{zero_of};
ghost use Rattle.algebra.specs.Table.{row};
ghost use Rattle.algebra.specs.Elimination.{joined, solution, refused, inverse, inverse_refused};
ghost use Rattle.algebra_elimination.specs.joints.Parts.{singular, joined_cell};

use crate::back_substitution::back;
use crate::pivoting::eliminate;
use algebra::Matrix;
use algebra::scalar::Scalar;
use arithmetic::plain::is_zero;

pub mod back_substitution;
pub mod pivoting;

// A and B side by side.
pub type SideBySide<T> = [[T; 12]; 6];

// X of A X = B, and whether a zero pivot refuses it; X is then of no use.
#[derive(Clone, Copy)]
pub struct Solved<T> {
    pub cells: Matrix<T>,
    pub refused: bool,
}

// Whether the diagonal of an eliminated matrix has a zero. A pivot ends on the diagonal, and no later column changes its row, so this tells
// whether a zero pivot was met.
fn is_singular<T: Scalar>(m: SideBySide<T>, n: usize) -> bool
    requires { n ≤ 6 }
    ensures { result ≡ singular T.arith n m }
{
    let mut zero = false;
    for c in 0..n {
        zero = zero | is_zero(m[c][c].value());
    }
    zero
}

// A row of A and a row of B side by side.
fn joined_row<T: Scalar>(a: [T; 6], b: [T; 6], n: usize, cols: usize) -> [T; 12]
    requires { (n ≤ 6) × (cols ≤ 6) }
    ensures { result ≡ row (zero_of T.arith) 12 (n + cols) (joined_cell T.arith n a b) }
{
    let mut out = [T::of(0.0); 12];
    for j in 0..n {
        out[j] = a[j];
    }
    for k in 0..cols {
        out[n + k] = b[k];
    }
    out
}

fn joined<T: Scalar>(a: Matrix<T>, b: Matrix<T>, n: usize, cols: usize) -> SideBySide<T>
    requires { (n ≤ 6) × (cols ≤ 6) }
    ensures { result ≡ joined T.arith 6 12 n cols a b }
{
    let mut m = [[T::of(0.0); 12]; 6];
    for i in 0..n {
        m[i] = joined_row(a[i], b[i], n, cols);
    }
    m
}

// X of A X = B, for A of n rows and B of cols columns.
pub fn solve<T: Scalar>(a: Matrix<T>, b: Matrix<T>, n: usize, cols: usize) -> Solved<T>
    requires { (n ≤ 6) × (cols ≤ 6) }
    ensures cells { result.cells ≡ solution T.arith 6 12 6 n cols a b }
    ensures refused { result.refused ≡ refused T.arith 6 12 n cols a b }
{
    let start = joined(a, b, n, cols);
    let done = eliminate(start, n, n + cols);
    Solved {
        cells: back(done, n, cols),
        refused: is_singular(done, n),
    }
}

// The inverse of A, of n rows: B is the identity.
pub fn inverse<T: Scalar>(a: Matrix<T>, n: usize) -> Solved<T>
    requires { n ≤ 6 }
    ensures cells { result.cells ≡ inverse T.arith 6 12 6 n a }
    ensures refused { result.refused ≡ inverse_refused T.arith 6 12 6 n a }
{
    let b = algebra_products::identity(n);
    solve(a, b, n, n)
}
