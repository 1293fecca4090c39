// A large matrix times a narrow one that lies in a slice of its own.
ghost use Rattle.std.specs.Prelude.{◌≡◌, ◌+◌, ◌*◌, ◌<◌, ◌≤◌, length, get_or};
ghost use Rattle.std.specs.Float.{nan};
ghost use Rattle.arithmetic.specs.Numbers.{plus_zero};
ghost use Rattle.algebra.specs.Kind.{floats};
ghost use Rattle.algebra.specs.Product.{product, sum_cells, at};
ghost use Rattle.algebra_large.specs.joints.Slab.{rows_at, put_row, put_rows, Holds};
ghost use Rattle.algebra_large.specs.joints.Steps.{gained_to, crossed};

use algebra_large::rows::start;

// The row at d of one slice gains f times the row at q of another.
pub fn gain_from(out: &mut [f64], d: usize, x: &[f64], q: usize, c: usize, f: f64)
    requires { (d + c ≤ length out.old) × (q + c ≤ length x.now) }
    ensures { out.new ≡ put_row d c (λ j. floats.plus (get_or out.old (d + j) nan) (floats.times f (get_or x.now (q + j) nan))) out.old }
{
    for j in 0..c {
        out[d + j] = out[d + j] + f * x[q + j];
    }
}

// The row at d gains, for each k by rising index, cell k of the row at p times row k of the narrow matrix at q.
pub fn gain_all(
    out: &mut [f64],
    d: usize,
    work: &[f64],
    p: usize,
    x: &[f64],
    q: usize,
    u: usize,
    n: usize,
    c: usize,
)
    requires { (d + c ≤ length out.old) × (p + n ≤ length work.now) × Holds u q n c (length x.now) }
    ensures { out.new ≡ put_row d c (λ j. gained_to n work.now p 1 0 x.now q u (get_or out.old (d + j) nan) j) out.old }
{
    for k in 0..n {
        let b = start(q, u, k, n, c, x.len());
        let f = work[p + k];
        gain_from(out, d, x, b, c, f);
    }
}

// One row of the product.
pub fn narrow_row(
    out: &mut [f64],
    d: usize,
    work: &[f64],
    p: usize,
    x: &[f64],
    q: usize,
    u: usize,
    n: usize,
    c: usize,
)
    requires { (d + c ≤ length out.old) × (p + n ≤ length work.now) × Holds u q n c (length x.now) }
    ensures { out.new ≡ put_row d c (gained_to n work.now p 1 0 x.now q u plus_zero) out.old }
{
    algebra_large::rows::clear_row(out, d, c);
    gain_all(out, d, work, p, x, q, u, n, c);
}

// The matrix at d of `out` becomes A B, with A of r rows and n columns at p of `work`, and B of n rows and c columns at q of `x`.
pub fn times_narrow(
    out: &mut [f64],
    d: usize,
    t: usize,
    work: &[f64],
    p: usize,
    s: usize,
    x: &[f64],
    q: usize,
    u: usize,
    r: usize,
    n: usize,
    c: usize,
)
    requires { Holds t d r c (length out.old) × Holds s p r n (length work.now) × Holds u q n c (length x.now) }
    ensures { out.new ≡ put_rows t d r c (product floats r c r n c (rows_at s p r n work.now) (rows_at u q n c x.now)) out.old }
{
    for i in 0..r {
        let a = start(d, t, i, r, c, out.len());
        let b = start(p, s, i, r, n, work.len());
        narrow_row(out, a, work, b, x, q, u, n, c);
    }
}

// x with the products of column i of P and row i of Q joined, by rising index.
pub fn cross_row(
    work: &[f64],
    p: usize,
    s: usize,
    q: usize,
    t: usize,
    n: usize,
    i: usize,
    x: f64,
) -> f64
    requires { Holds s p n n (length work.now) × Holds t q n n (length work.now) × (i < n) }
    ensures { result ≡ crossed n (rows_at s p n n work.now) (rows_at t q n n work.now) i x }
{
    let mut y = x;
    for j in 0..n {
        let a = start(p, s, j, n, n, work.len());
        let b = start(q, t, i, n, n, work.len());
        y = y + work[a + i] * work[b + j];
    }
    y
}

// The sum over i, and within it over j, of P[j, i] times Q[i, j], with one running sum.
pub fn cross_sum(work: &[f64], p: usize, s: usize, q: usize, t: usize, n: usize) -> f64
    requires { Holds s p n n (length work.now) × Holds t q n n (length work.now) }
    ensures { result ≡ sum_cells floats n n (λ i j. floats.times (at floats (rows_at s p n n work.now) j i) (at floats (rows_at t q n n work.now) i j)) }
{
    let mut y = 0.0;
    for i in 0..n {
        y = cross_row(work, p, s, q, t, n, i, y);
    }
    y
}
