// Whole matrices, row by row.
ghost use Rattle.std.specs.Prelude.{◌≡◌, ◌+◌, ◌*◌, ◌<◌, ◌≤◌, length};
ghost use Rattle.arithmetic.specs.Numbers.{plus_zero};
ghost use Rattle.algebra.specs.Table.{blank};
ghost use Rattle.algebra.specs.Kind.{floats};
ghost use Rattle.algebra.specs.Product.{product};
ghost use Rattle.algebra_large.specs.joints.Slab.{rows_at, put_rows, gained, gram_of, Holds, Apart};

use algebra_large::rows::start;

// Zeros.
pub fn clear(work: &mut [f64], d: usize, s: usize, r: usize, c: usize)
    requires { Holds s d r c (length work.old) }
    ensures { work.new ≡ put_rows s d r c (blank plus_zero r c) work.old }
{
    for i in 0..r {
        let a = start(d, s, i, r, c, work.len());
        algebra_large::rows::clear_row(work, a, c);
    }
}

// The matrix at d becomes that at p.
pub fn copy(work: &mut [f64], d: usize, s: usize, p: usize, t: usize, r: usize, c: usize)
    requires { Holds s d r c (length work.old) × Holds t p r c (length work.old) × Apart d (r * s) p (r * t) }
    ensures { work.new ≡ put_rows s d r c (rows_at t p r c work.old) work.old }
{
    for i in 0..r {
        let a = start(d, s, i, r, c, work.len());
        let b = start(p, t, i, r, c, work.len());
        algebra_large::rows::copy_row(work, a, b, c);
    }
}

// The matrix at d gains f times that at p, cell by cell.
pub fn add_times(
    work: &mut [f64],
    d: usize,
    s: usize,
    p: usize,
    t: usize,
    r: usize,
    c: usize,
    f: f64,
)
    requires { Holds s d r c (length work.old) × Holds t p r c (length work.old) × Apart d (r * s) p (r * t) }
    ensures { work.new ≡ put_rows s d r c (gained r c (rows_at s d r c work.old) f (rows_at t p r c work.old)) work.old }
{
    for i in 0..r {
        let a = start(d, s, i, r, c, work.len());
        let b = start(p, t, i, r, c, work.len());
        algebra_large::rows::gain_row(work, a, b, c, f);
    }
}

// The matrix at d becomes A B, with A of r rows and n columns at p, and B of n rows and c columns at q, whose strides are s, t and u.
pub fn product(
    work: &mut [f64],
    d: usize,
    s: usize,
    p: usize,
    t: usize,
    q: usize,
    u: usize,
    r: usize,
    n: usize,
    c: usize,
)
    requires holds { Holds s d r c (length work.old) × Holds t p r n (length work.old) × Holds u q n c (length work.old) }
    requires apart { Apart d (r * s) p (r * t) × Apart d (r * s) q (n * u) }
    ensures { work.new ≡ put_rows s d r c (product floats r c r n c (rows_at t p r n work.old) (rows_at u q n c work.old)) work.old }
{
    for i in 0..r {
        let a = start(d, s, i, r, c, work.len());
        let b = start(p, t, i, r, n, work.len());
        algebra_large::rows::product_row(work, a, b, 1, 0, q, u, n, c);
    }
}

// The matrix at d becomes XᵀX, with X of n rows and c columns at p.
pub fn gram(work: &mut [f64], d: usize, s: usize, p: usize, t: usize, n: usize, c: usize)
    requires { Holds s d c c (length work.old) × Holds t p n c (length work.old) × Apart d (c * s) p (n * t) }
    ensures { work.new ≡ put_rows s d c c (gram_of n c (rows_at t p n c work.old)) work.old }
{
    for i in 0..c {
        let a = start(d, s, i, c, c, work.len());
        algebra_large::rows::product_row(work, a, p, t, i, p, t, n, c);
    }
}
