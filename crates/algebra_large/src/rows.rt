// One row: c cells of the slice that lie side by side. Each loop runs over them in order, so that several can be done at a time.
ghost use Rattle.std.specs.Prelude.{◌≡◌, ◌+◌, ◌*◌, ◌<◌, ◌≤◌, length, get_or};
ghost use Rattle.std.specs.Float.{nan};
ghost use Rattle.arithmetic.specs.Numbers.{plus_zero};
ghost use Rattle.algebra.specs.Kind.{floats};
ghost use Rattle.algebra_large.specs.joints.Slab.{put_row, Holds, Apart};
ghost use Rattle.algebra_large.specs.joints.Steps.{gained_to};

// Where row i starts, of the r rows of c columns of the matrix at a, in a slice of len.
pub fn start(a: usize, s: usize, i: usize, r: usize, c: usize, len: usize) -> usize
    requires { Holds s a r c len × (i < r) }
    ensures { (result ≡ a + i * s) × (result + c ≤ len) }
{
    a + i * s
}

pub fn clear_row(work: &mut [f64], d: usize, c: usize)
    requires { d + c ≤ length work.old }
    ensures { work.new ≡ put_row d c (λ j. plus_zero) work.old }
{
    for j in 0..c {
        work[d + j] = 0.0;
    }
}

pub fn copy_row(work: &mut [f64], d: usize, p: usize, c: usize)
    requires { (d + c ≤ length work.old) × (p + c ≤ length work.old) × Apart d c p c }
    ensures { work.new ≡ put_row d c (λ j. get_or work.old (p + j) nan) work.old }
{
    for j in 0..c {
        work[d + j] = work[p + j];
    }
}

// The row at d gains f times the row at p.
pub fn gain_row(work: &mut [f64], d: usize, p: usize, c: usize, f: f64)
    requires { (d + c ≤ length work.old) × (p + c ≤ length work.old) × Apart d c p c }
    ensures { work.new ≡ put_row d c (λ j. floats.plus (get_or work.old (d + j) nan) (floats.times f (get_or work.old (p + j) nan))) work.old }
{
    for j in 0..c {
        work[d + j] = work[d + j] + f * work[p + j];
    }
}

// The row at d loses f times the row at p.
pub fn lose_row(work: &mut [f64], d: usize, p: usize, c: usize, f: f64)
    requires { (d + c ≤ length work.old) × (p + c ≤ length work.old) × Apart d c p c }
    ensures { work.new ≡ put_row d c (λ j. floats.minus (get_or work.old (d + j) nan) (floats.times f (get_or work.old (p + j) nan))) work.old }
{
    for j in 0..c {
        work[d + j] = work[d + j] - f * work[p + j];
    }
}

// The row at d is divided by f.
pub fn divide_row(work: &mut [f64], d: usize, c: usize, f: f64)
    requires { d + c ≤ length work.old }
    ensures { work.new ≡ put_row d c (λ j. floats.over (get_or work.old (d + j) nan) f) work.old }
{
    for j in 0..c {
        work[d + j] = work[d + j] / f;
    }
}

// The row at d gains, for each k by rising index, cell (k, o) of the matrix at p times row k of the matrix at q.
pub fn gain_rows(
    work: &mut [f64],
    d: usize,
    p: usize,
    u: usize,
    o: usize,
    q: usize,
    t: usize,
    n: usize,
    c: usize,
)
    requires c_in_bounds { (d + c ≤ length work.old) × Holds u p n (o + 1) (length work.old) × Holds t q n c (length work.old) }
    requires apart { Apart d c p (n * u) × Apart d c q (n * t) }
    ensures { work.new ≡ put_row d c (λ j. gained_to n work.old p u o work.old q t (get_or work.old (d + j) nan) j) work.old }
{
    for k in 0..n {
        let a = start(p, u, k, n, o + 1, work.len());
        let b = start(q, t, k, n, c, work.len());
        let f = work[a + o];
        gain_row(work, d, b, c, f);
    }
}

// The row at d becomes a row of a product.
pub fn product_row(
    work: &mut [f64],
    d: usize,
    p: usize,
    u: usize,
    o: usize,
    q: usize,
    t: usize,
    n: usize,
    c: usize,
)
    requires c_in_bounds { (d + c ≤ length work.old) × Holds u p n (o + 1) (length work.old) × Holds t q n c (length work.old) }
    requires apart { Apart d c p (n * u) × Apart d c q (n * t) }
    ensures { work.new ≡ put_row d c (gained_to n work.old p u o work.old q t plus_zero) work.old }
{
    clear_row(work, d, c);
    gain_rows(work, d, p, u, o, q, t, n, c);
}
