// Elimination in place: A and B side by side, n rows of w columns at a with stride s, of which the first n columns are A.
ghost use Rattle.std.specs.Prelude.{◌≡◌, ◌⊎◌, ◌+◌, ◌*◌, ◌<◌, ◌≤◌, length, get_or};
ghost use Rattle.std.specs.Float.{nan};
ghost use Rattle.algebra.specs.Kind.{floats};
ghost use Rattle.algebra.specs.Elimination.{larger, pivot_row, cleared, eliminate_column, eliminate_to};
ghost use Rattle.algebra_large.specs.joints.Slab.{rows_at, put_row, put_rows, zero_on_diagonal, Holds, Apart};

use algebra_large::rows::start;

// Of rows best and r, that with the larger magnitude in column c.
pub fn larger_row(
    work: &[f64],
    a: usize,
    s: usize,
    n: usize,
    w: usize,
    c: usize,
    r: usize,
    best: usize,
) -> usize
    requires { Holds s a n w (length work.now) × (c < w) × (r < n) × (best < n) }
    ensures { (result ≡ larger floats (rows_at s a n w work.now) c r best) × (result < n) }
{
    let p = start(a, s, r, n, w, work.len());
    let q = start(a, s, best, n, w, work.len());
    if arithmetic::plain::is_larger(work[p + c], work[q + c]) {
        return r;
    }
    best
}

// The row of the pivot of column c.
pub fn find_pivot(work: &[f64], a: usize, s: usize, n: usize, w: usize, c: usize) -> usize
    requires { Holds s a n w (length work.now) × (c < n) × (n ≤ w) }
    ensures { (result ≡ pivot_row floats n c (rows_at s a n w work.now)) × (result < n) }
{
    let mut best = c;
    for r in c + 1..n {
        best = larger_row(work, a, s, n, w, c, r, best);
    }
    best
}

// The rows at d and e, which are one row or have no cell in common, change places.
pub fn swap_rows(work: &mut [f64], d: usize, e: usize, c: usize)
    requires { (d + c ≤ length work.old) × (e + c ≤ length work.old) × ((d ≡ e) ⊎ Apart d c e c) }
    ensures { work.new ≡ put_row e c (λ j. get_or work.old (d + j) nan) (put_row d c (λ j. get_or work.old (e + j) nan) work.old) }
{
    for j in 0..c {
        let x = work[d + j];
        work[d + j] = work[e + j];
        work[e + j] = x;
    }
}

// Each row below c loses its factor times row c, right of c.
pub fn clear_below(work: &mut [f64], a: usize, s: usize, n: usize, w: usize, c: usize)
    requires { Holds s a n w (length work.old) × (c < n) × (n ≤ w) }
    ensures { work.new ≡ put_rows s a n w (cleared floats n w c (rows_at s a n w work.old)) work.old }
{
    for r in c + 1..n {
        let p = start(a, s, r, n, w, work.len());
        let q = start(a, s, c, n, w, work.len());
        let f = work[p + c] / work[q + c];
        algebra_large::rows::lose_row(work, p + c + 1, q + c + 1, w - (c + 1), f);
    }
}

// Column c.
pub fn eliminate_column(work: &mut [f64], a: usize, s: usize, n: usize, w: usize, c: usize)
    requires { Holds s a n w (length work.old) × (c < n) × (n ≤ w) }
    ensures { work.new ≡ put_rows s a n w (eliminate_column floats n w c (rows_at s a n w work.old)) work.old }
{
    let b = find_pivot(work, a, s, n, w, c);
    let p = start(a, s, c, n, w, work.len());
    let q = start(a, s, b, n, w, work.len());
    swap_rows(work, p, q, w);
    clear_below(work, a, s, n, w, c);
}

// All columns, whatever the pivots.
pub fn eliminate(work: &mut [f64], a: usize, s: usize, n: usize, w: usize)
    requires { Holds s a n w (length work.old) × (n ≤ w) }
    ensures { work.new ≡ put_rows s a n w (eliminate_to floats n n w (rows_at s a n w work.old)) work.old }
{
    for c in 0..n {
        eliminate_column(work, a, s, n, w, c);
    }
}

// Whether a pivot was zero.
pub fn is_singular(work: &[f64], a: usize, s: usize, n: usize, w: usize) -> bool
    requires { Holds s a n w (length work.now) × (n ≤ w) }
    ensures { result ≡ zero_on_diagonal n (rows_at s a n w work.now) }
{
    let mut z = false;
    for c in 0..n {
        let p = start(a, s, c, n, w, work.len());
        let zero = arithmetic::plain::is_zero(work[p + c]);
        z = z | zero;
    }
    z
}
