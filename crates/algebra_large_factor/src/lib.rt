// Cholesky, in the place of the matrix that is factored: n rows and columns at a, with stride s.
#![tactic(auto)]

ghost use Rattle.std.specs.Prelude.{◌≡◌, ◌+◌, ◌*◌, ◌<◌, ◌≤◌, length};
ghost use Rattle.algebra.specs.Kind.{floats};
ghost use Rattle.algebra.specs.Cholesky.{less_dot, below_diagonal, cholesky_column, cholesky_to, not_positive, cholesky_refused, lower};
ghost use Rattle.algebra_large.specs.joints.Slab.{rows_at, put_rows, Holds};

use algebra_large::rows::start;

// Cell (i, j) less the products of rows i and j in the columns before j.
pub fn less_dot(work: &[f64], a: usize, s: usize, n: usize, i: usize, j: usize) -> f64
    requires { Holds s a n n (length work.now) × (i < n) × (j < n) }
    ensures { result ≡ less_dot floats j (rows_at s a n n work.now) i j }
{
    let p = start(a, s, i, n, n, work.len());
    let q = start(a, s, j, n, n, work.len());
    let mut x = work[p + j];
    for k in 0..j {
        x = x - work[p + k] * work[q + k];
    }
    x
}

// The cells of column j below the diagonal, whose root is d.
pub fn below_diagonal(work: &mut [f64], a: usize, s: usize, n: usize, j: usize, d: f64)
    requires { Holds s a n n (length work.old) × (j < n) }
    ensures { work.new ≡ put_rows s a n n (below_diagonal floats n j d (rows_at s a n n work.old)) work.old }
{
    for i in j + 1..n {
        let x = less_dot(work, a, s, n, i, j);
        let p = start(a, s, i, n, n, work.len());
        work[p + j] = x / d;
    }
}

// Column j; true where its diagonal is not above zero.
pub fn column(work: &mut [f64], a: usize, s: usize, n: usize, j: usize) -> bool
    requires { Holds s a n n (length work.old) × (j < n) }
    ensures work_after { work.new ≡ put_rows s a n n (cholesky_column floats n j (rows_at s a n n work.old)) work.old }
    ensures value { result ≡ not_positive floats j (rows_at s a n n work.old) }
{
    let x = less_dot(work, a, s, n, j, j);
    let d = arithmetic::root::sqrt(x);
    let p = start(a, s, j, n, n, work.len());
    work[p + j] = d;
    below_diagonal(work, a, s, n, j, d);
    !(x > 0.0)
}

// All columns; true where some diagonal is not above zero, and the factor is of no use.
pub fn cholesky(work: &mut [f64], a: usize, s: usize, n: usize) -> bool
    requires { Holds s a n n (length work.old) }
    ensures work_after { work.new ≡ put_rows s a n n (cholesky_to floats n n (rows_at s a n n work.old)) work.old }
    ensures value { result ≡ cholesky_refused floats n n (rows_at s a n n work.old) }
{
    let mut refused = false;
    for j in 0..n {
        let not_positive = column(work, a, s, n, j);
        refused = refused | not_positive;
    }
    refused
}

// Zeros above the diagonal.
pub fn zero_above(work: &mut [f64], a: usize, s: usize, n: usize)
    requires { Holds s a n n (length work.old) }
    ensures { work.new ≡ put_rows s a n n (lower floats n n n (rows_at s a n n work.old)) work.old }
{
    for i in 0..n {
        let p = start(a, s, i, n, n, work.len());
        algebra_large::rows::clear_row(work, p + i + 1, n - (i + 1));
    }
}
