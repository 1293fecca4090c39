// A pair of Jacobi's sweeps: its rotation test, and the two matrices rotated.
ghost use Rattle.std.specs.Prelude.{◌≡◌, ◌+◌, ◌<◌, ◌≤◌};
ghost use Rattle.algebra.specs.Table.{table};
ghost use Rattle.algebra.specs.Kind.{zero_of};
ghost use Rattle.algebra_jacobi.specs.joints.Rotated.{chosen_cell, mirroring_cell};
ghost use Rattle.algebra_jacobi.specs.joints.States.{state_of};
ghost use Rattle.algebra_jacobi.specs.joints.Tested.{rotates, seen_after, rotated_pair};
ghost use Rattle.algebra.specs.Jacobi.{rotated};

use crate::JacobiState;
use algebra::Matrix;
use algebra::scalar::Scalar;
use algebra_rotation::{cosine, ratio, sine, tangent, turn_columns};
use arithmetic::plain::is_zero;

// Cell (i, j) of the rotated matrix, from cells of w, whose columns are turned: `here` is w's own, and `by_p` and `by_q` are cells p and q of its row j, which rows p and q mirror.
fn rotated_cell<T: Scalar>(
    i: usize,
    j: usize,
    p: usize,
    q: usize,
    first: T,
    second: T,
    by_p: T,
    by_q: T,
    here: T,
) -> T
    ensures { result ≡ chosen_cell T.arith p q first second i j by_p by_q here }
{
    if i == p {
        if j == p {
            return first;
        }
        if j == q {
            return T::of(0.0);
        }
        return by_p;
    }
    if i == q {
        if j == q {
            return second;
        }
        if j == p {
            return T::of(0.0);
        }
        return by_q;
    }
    here
}

// The rotated matrix, from w, whose columns are turned, and from its two diagonal cells `first` and `second`.
fn rotated_cells<T: Scalar>(
    w: Matrix<T>,
    n: usize,
    p: usize,
    q: usize,
    first: T,
    second: T,
) -> Matrix<T>
    requires { (n ≤ 6) × (p < 6) × (q < 6) }
    ensures { result ≡ table (zero_of T.arith) 6 6 n n (mirroring_cell T.arith p q first second w) }
{
    let mut out = [[T::of(0.0); 6]; 6];
    for i in 0..n {
        for j in 0..n {
            out[i][j] = rotated_cell(i, j, p, q, first, second, w[j][p], w[j][q], w[i][j]);
        }
    }
    out
}

pub fn rotated<T: Scalar>(m: Matrix<T>, n: usize, p: usize, q: usize, t: T, c: T, s: T) -> Matrix<T>
    requires { (n ≤ 6) × (p < 6) × (q < 6) }
    ensures { result ≡ rotated T.arith 6 6 n p q t c s m }
{
    let w = turn_columns(m, n, p, q, c, s);
    let moved = t.times(m[p][q]);
    let first = m[p][p].minus(moved);
    let second = m[q][q].plus(moved);
    rotated_cells(w, n, p, q, first, second)
}

// Whether a pair rotates, from its three cells: document 01's "Where A_ab ≠ 0, rotate if A_ab² > 2^-100 × (A_aa × A_bb)". The values alone decide.
pub fn rotates<T: Scalar>(pp: T, qq: T, pq: T, limit: f64) -> bool
    ensures { result ≡ rotates T.arith limit pp qq pq }
{
    let left = pq.times(pq);
    let right = T::of(limit).times(pp.times(qq));
    !is_zero(pq.value()) & (right.value() < left.value())
}

// `seen`, with the products of a pair's test counted, whether or not the pair rotates. Where the cell is zero no test is made, and `seen` stays.
pub fn tested_mark<T: Scalar>(pp: T, qq: T, pq: T, limit: f64, seen: T) -> T
    ensures { result ≡ seen_after T.arith limit pp qq pq seen }
{
    if is_zero(pq.value()) {
        return seen;
    }
    let left = pq.times(pq);
    let right = T::of(limit).times(pp.times(qq));
    seen.also(left.also(right))
}

// The matrix and the vectors rotated at the pair (p, q).
pub fn rotated_pair<T: Scalar>(
    state: JacobiState<T>,
    n: usize,
    p: usize,
    q: usize,
) -> JacobiState<T>
    requires { (n ≤ 6) × (p < 6) × (q < 6) }
    ensures { state_of result ≡ rotated_pair T.arith 6 6 n p q (state_of state) }
{
    let m = state.matrix;
    let t = tangent(ratio(m[p][p], m[q][q], m[p][q]));
    let c = cosine(t);
    let s = sine(t, c);
    JacobiState {
        matrix: rotated(m, n, p, q, t, c, s),
        vectors: turn_columns(state.vectors, n, p, q, c, s),
        count: state.count,
        seen: state.seen,
    }
}
