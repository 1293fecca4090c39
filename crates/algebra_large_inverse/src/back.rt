// Back substitution into another matrix, and the inverse.
ghost use Rattle.std.specs.Prelude.{◌≡◌, cond, ◌+◌, ◌-◌, ◌*◌, ◌<◌, ◌≤◌, ltb, eqb, length, get_or};
ghost use Rattle.std.specs.Float.{nan};
ghost use Rattle.arithmetic.specs.Numbers.{plus_zero, one};
ghost use Rattle.algebra.specs.Kind.{floats};
ghost use Rattle.algebra.specs.Product.{identity};
ghost use Rattle.algebra.specs.Elimination.{back_cell, back_to, eliminate_to, joined, inverse, inverse_refused};
ghost use Rattle.algebra_large.specs.joints.Slab.{rows_at, put_row, put_rows, Holds, Apart};
ghost use Rattle.algebra_large.specs.joints.Steps.{known_less, back_over, joined_cell};

use algebra_large::rows::start;

// Row i of the matrix X at d loses the known terms by rising index: cell j of the row at p times row j of X.
pub fn lose_known(work: &mut [f64], d: usize, t: usize, p: usize, i: usize, n: usize, c: usize)
    requires { Holds t d n c (length work.old) × (i < n) × (p + n ≤ length work.old) × Apart d (n * t) p n }
    ensures { work.new ≡ put_row (d + i * t) c (λ k. known_less n work.old d t p i (get_or work.old (d + i * t + k) nan) k) work.old }
{
    for j in i + 1..n {
        let x = start(d, t, i, n, c, work.len());
        let y = start(d, t, j, n, c, work.len());
        let f = work[p + j];
        algebra_large::rows::lose_row(work, x, y, c, f);
    }
}

// Row i of X: B's row, less the known terms, over the pivot.
pub fn back_row(
    work: &mut [f64],
    d: usize,
    t: usize,
    a: usize,
    s: usize,
    n: usize,
    c: usize,
    i: usize,
)
    requires { Holds t d n c (length work.old) × Holds s a n (n + c) (length work.old) × Apart d (n * t) a (n * s) × (i < n) }
    ensures { work.new ≡ put_row (d + i * t) c (back_cell floats n (rows_at s a n (n + c) work.old) (rows_at t d n c work.old) i) work.old }
{
    let x = start(d, t, i, n, c, work.len());
    let p = start(a, s, i, n, n + c, work.len());
    algebra_large::rows::copy_row(work, x, p + n, c);
    lose_known(work, d, t, p, i, n, c);
    let f = work[p + i];
    algebra_large::rows::divide_row(work, x, c, f);
}

// The rows of X, from the last.
pub fn back_rows(work: &mut [f64], d: usize, t: usize, a: usize, s: usize, n: usize, c: usize)
    requires { Holds t d n c (length work.old) × Holds s a n (n + c) (length work.old) × Apart d (n * t) a (n * s) }
    ensures { work.new ≡ put_rows t d n c (back_over n n c (rows_at s a n (n + c) work.old) (rows_at t d n c work.old)) work.old }
{
    for h in 0..n {
        back_row(work, d, t, a, s, n, c, n - 1 - h);
    }
}

// X at d, of c columns, where the n rows at a hold the eliminated A and B.
pub fn back(work: &mut [f64], d: usize, t: usize, a: usize, s: usize, n: usize, c: usize)
    requires { Holds t d n c (length work.old) × Holds s a n (n + c) (length work.old) × Apart d (n * t) a (n * s) }
    ensures { work.new ≡ put_rows t d n c (back_to floats n n c n c (rows_at s a n (n + c) work.old)) work.old }
{
    algebra_large_products::whole::clear(work, d, t, n, c);
    back_rows(work, d, t, a, s, n, c);
}

// Row i of a matrix beside the identity: the row at b, and n cells of the identity.
pub fn join_row(work: &mut [f64], e: usize, b: usize, n: usize, i: usize)
    requires { (e + (n + n) ≤ length work.old) × (b + n ≤ length work.old) × Apart e (n + n) b n × (i < n) }
    ensures { work.new ≡ put_row e (n + n) (joined_cell n work.old b i) work.old }
{
    algebra_large::rows::copy_row(work, e, b, n);
    algebra_large::rows::clear_row(work, e + n, n);
    work[e + n + i] = 1.0;
}

// The matrix at p beside the identity, in the n rows at a.
pub fn join(work: &mut [f64], a: usize, s: usize, p: usize, u: usize, n: usize)
    requires { Holds s a n (n + n) (length work.old) × Holds u p n n (length work.old) × Apart a (n * s) p (n * u) }
    ensures { work.new ≡ put_rows s a n (n + n) (joined floats n (n + n) n n (rows_at u p n n work.old) (identity floats n n n)) work.old }
{
    for i in 0..n {
        let e = start(a, s, i, n, n + n, work.len());
        let b = start(p, u, i, n, n, work.len());
        join_row(work, e, b, n, i);
    }
}

// The inverse of the matrix at p, at d, by elimination in the n rows at a; true where a pivot was zero, and the inverse is of no use.
pub fn invert(
    work: &mut [f64],
    d: usize,
    t: usize,
    a: usize,
    s: usize,
    p: usize,
    u: usize,
    n: usize,
) -> bool
    requires holds { Holds t d n n (length work.old) × Holds s a n (n + n) (length work.old) × Holds u p n n (length work.old) }
    requires apart { Apart d (n * t) a (n * s) × Apart a (n * s) p (n * u) }
    ensures work_after { work.new ≡ put_rows t d n n (inverse floats n (n + n) n n (rows_at u p n n work.old)) (put_rows s a n (n + n) (eliminate_to floats n n (n + n) (joined floats n (n + n) n n (rows_at u p n n work.old) (identity floats n n n))) work.old) }
    ensures value { result ≡ inverse_refused floats n (n + n) n n (rows_at u p n n work.old) }
{
    join(work, a, s, p, u, n);
    crate::solve::eliminate(work, a, s, n, n + n);
    let z = crate::solve::is_singular(work, a, s, n, n + n);
    back(work, d, t, a, s, n, n);
    z
}
