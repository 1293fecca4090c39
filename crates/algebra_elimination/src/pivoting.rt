// Elimination of A X = B, its way down: for each column a pivot, its row swapped up, and the rows below less their factors times it.
// A and B stand side by side in one matrix: the n columns of A, then those of B, w in all.
ghost use Rattle.std.specs.Prelude.{◌≡◌, cond, ◌+◌, ◌<◌, ◌≤◌};
ghost use Rattle.arithmetic.specs.Numbers.{is_larger};
ghost use Rattle.algebra.specs.Elimination.{pivot_row, factor, less_by, cleared, eliminate_column, eliminate_to};

use crate::SideBySide;
use algebra::scalar::Scalar;
use arithmetic::plain::is_larger;

// Of the rows r and best, whose cells in the pivot's column are x and y, that with the larger magnitude there. An equal one does not replace best.
fn larger<T: Scalar>(x: T, y: T, r: usize, best: usize) -> usize
    ensures { result ≡ cond (is_larger (T.arith.value x) (T.arith.value y)) r best }
{
    let replaced = is_larger(x.value(), y.value());
    if replaced { r } else { best }
}

// The row of the pivot of column c, among the rows c to n - 1.
fn pivot_row<T: Scalar>(m: SideBySide<T>, n: usize, c: usize) -> usize
    requires { (n ≤ 6) × (c < n) }
    ensures { result ≡ pivot_row T.arith n c m }
{
    let mut best = c;
    for r in c + 1..n {
        best = larger(m[r][c], m[best][c], r, best);
    }
    best
}

// What the pivot row is multiplied with before it is taken from a lower row.
fn factor<T: Scalar>(pivots: [T; 12], lower: [T; 12], c: usize) -> T
    requires { c < 12 }
    ensures { result ≡ factor T.arith c pivots lower }
{
    lower[c].over(pivots[c])
}

// The lower row less f times the pivot row, right of c; its cells up to c are not read again.
fn less_by<T: Scalar>(pivots: [T; 12], lower: [T; 12], w: usize, c: usize, f: T) -> [T; 12]
    requires { (w ≤ 12) × (c < w) }
    ensures { result ≡ less_by T.arith w c f pivots lower }
{
    let mut out = lower;
    for j in c + 1..w {
        out[j] = lower[j].minus(f.times(pivots[j]));
    }
    out
}

// The rows below c less their factors times row c.
fn clear<T: Scalar>(m: SideBySide<T>, n: usize, w: usize, c: usize) -> SideBySide<T>
    requires { (n ≤ 6) × (c < n) × (n ≤ w) × (w ≤ 12) }
    ensures { result ≡ cleared T.arith n w c m }
{
    let mut out = m;
    for r in c + 1..n {
        let f = factor(m[c], m[r], c);
        out[r] = less_by(m[c], m[r], w, c, f);
    }
    out
}

// Column c eliminated, whatever its pivot.
fn eliminate_column<T: Scalar>(m: SideBySide<T>, n: usize, w: usize, c: usize) -> SideBySide<T>
    requires { (n ≤ 6) × (c < n) × (n ≤ w) × (w ≤ 12) }
    ensures { result ≡ eliminate_column T.arith n w c m }
{
    let pivot = pivot_row(m, n, c);
    let mut swapped = m;
    swapped[c] = m[pivot];
    swapped[pivot] = m[c];
    clear(swapped, n, w, c)
}

pub fn eliminate<T: Scalar>(m: SideBySide<T>, n: usize, w: usize) -> SideBySide<T>
    requires { (n ≤ 6) × (n ≤ w) × (w ≤ 12) }
    ensures { result ≡ eliminate_to T.arith n n w m }
{
    let mut out = m;
    for c in 0..n {
        let next = eliminate_column(out, n, w, c);
        out = next;
    }
    out
}
