// Elimination of A X = B, its way up: X from its last row, where A and B stand eliminated side by side in one matrix, A in the first n columns.
ghost use Rattle.std.specs.Prelude.{◌≡◌, ◌+◌, ◌<◌, ◌≤◌};
ghost use Rattle.algebra.specs.Kind.{zero_of};
ghost use Rattle.algebra.specs.Table.{row};
ghost use Rattle.algebra.specs.Elimination.{back_to};
ghost use Rattle.algebra_elimination.specs.joints.BackSubstitution.{less_known, known_cell};

use crate::SideBySide;
use algebra::Matrix;
use algebra::scalar::Scalar;

// Row i of X, from the rows of X below i: each cell of B less the known terms, by rising index, over the pivot. `a` is row i of A and B side by side.
fn back_row<T: Scalar>(a: [T; 12], x: Matrix<T>, n: usize, cols: usize, i: usize) -> [T; 6]
    requires { (n ≤ 6) × (i < n) × (cols ≤ 6) }
    ensures { result ≡ row (zero_of T.arith) 6 cols (known_cell T.arith n a x i) }
{
    let mut out = [T::of(0.0); 6];
    for k in 0..cols {
        let mut sum = a[n + k];
        for j in i + 1..n {
            sum = sum.minus(a[j].times(x[j][k]));
        }
        out[k] = sum.over(a[i]);
    }
    out
}

// X, from its last row up.
pub fn back<T: Scalar>(m: SideBySide<T>, n: usize, cols: usize) -> Matrix<T>
    requires { (n ≤ 6) × (cols ≤ 6) }
    ensures { result ≡ back_to T.arith n 6 6 n cols m }
{
    let mut x = [[T::of(0.0); 6]; 6];
    for d in 0..n {
        let i = n - 1 - d;
        x[i] = back_row(m[i], x, n, cols, i);
    }
    x
}
