// Jacobi's sweeps, on either kind of number. The products of the rotation test are steps too: the state's `seen` counts their marks. Its value stays +0.
#![tactic(auto)]

ghost use Rattle.std.specs.Prelude.{◌≡◌, ◌+◌, ◌<◌, ◌≤◌};
ghost use Rattle.algebra_jacobi.specs.joints.Starts.{mirrored_cell};
ghost use Rattle.algebra_jacobi.specs.joints.States.{state_of, start_of};
ghost use Rattle.algebra.specs.Jacobi.{State, sweeps_to, mirrored, jacobi};

use crate::tested_rotation::{rotated_pair, rotates, tested_mark};
use algebra::Matrix;
use algebra::scalar::Scalar;

pub mod tested_rotation;

// The matrix, rotated so far; the vectors, in columns; the rotations made; and a number whose mark counts every product of the rotation tests.
#[derive(Clone, Copy)]
pub struct JacobiState<T> {
    pub matrix: Matrix<T>,
    pub vectors: Matrix<T>,
    pub count: usize,
    pub seen: T,
}

// The 30 sweeps, whether or not the last ones still rotate: over the pairs, row by row. A pair is tested on its three cells where they stand, so that nothing is
// copied for one that stays as it is.
pub fn sweeps<T: Scalar>(
    matrix: Matrix<T>,
    vectors: Matrix<T>,
    n: usize,
    limit: f64,
) -> JacobiState<T>
    requires { n ≤ 6 }
    ensures { state_of result ≡ sweeps_to T.arith 30 limit 6 6 n (start_of T.arith matrix vectors) }
{
    let mut out = JacobiState {
        matrix: matrix,
        vectors: vectors,
        count: 0,
        seen: T::of(0.0),
    };
    for i in 0..30usize {
        for p in 0..n {
            for q in p + 1..n {
                let pp = out.matrix[p][p];
                let qq = out.matrix[q][q];
                let pq = out.matrix[p][q];
                out.seen = tested_mark(pp, qq, pq, limit, out.seen);
                if rotates(pp, qq, pq, limit) {
                    out.count = out.count + 1;
                    let next = rotated_pair(out, n, p, q);
                    out = next;
                }
            }
        }
    }
    out
}

fn mirrored_cell<T: Scalar>(m: Matrix<T>, i: usize, j: usize) -> T
    requires { (i < 6) × (j < 6) }
    ensures { result ≡ mirrored_cell T.arith m i j }
{
    if j < i {
        return m[j][i];
    }
    m[i][j]
}

// The lower half is taken from the upper.
pub fn mirrored<T: Scalar>(m: Matrix<T>, n: usize) -> Matrix<T>
    requires { n ≤ 6 }
    ensures { result ≡ mirrored T.arith 6 6 n m }
{
    let mut out = [[T::of(0.0); 6]; 6];
    for i in 0..n {
        for j in 0..n {
            out[i][j] = mirrored_cell(m, i, j);
        }
    }
    out
}

// From the vectors of the identity. The diagonal of the rotated matrix is the answer.
pub fn jacobi<T: Scalar>(m: Matrix<T>, n: usize, limit: f64) -> JacobiState<T>
    requires { n ≤ 6 }
    ensures { (state_of result ≡ jacobi T.arith limit 6 6 n m) × (result.count ≤ 450) }
{
    let start = mirrored(m, n);
    let unit = algebra_products::identity(n);
    sweeps(start, unit, n, limit)
}
