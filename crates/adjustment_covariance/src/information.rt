// What the Hs give: O and S X, narrow matrices of n rows with stride 6 in a slice of their own, the small P and K, and what the Qs are made of.
ghost use Rattle.std.specs.Prelude.{◌≡◌, ◌+◌, ◌*◌, ◌≤◌, ◌<◌, length, get_or};
ghost use Rattle.std.specs.Float.{nan};
ghost use Rattle.arithmetic.specs.Numbers.{plus_zero};
ghost use Rattle.algebra.specs.Kind.{floats};
ghost use Rattle.algebra.specs.Product.{cell, product, transpose};
ghost use Rattle.algebra_large.specs.joints.Slab.{rows_at, put_row, put_rows, Holds, Apart};
ghost use Rattle.adjustment.specs.Information.{o_rows, p_rows, k_cell};
ghost use Rattle.adjustment_covariance.specs.joints.Lent.{x_rows, HeldX, gained_with};

use adjustment::LentDesign;
use algebra_large::rows::start;

// The narrow matrix at d becomes H X, with H at a of the work slice: O_r, and S X where S stands at a.
pub fn fill_o(narrow: &mut [f64], d: usize, work: &[f64], a: usize, s: usize, design: &LentDesign)
    requires { Holds 6 d design.now.covariance.specimens design.now.coefficients (length narrow.old) × Holds s a design.now.covariance.specimens design.now.covariance.specimens (length work.now) × HeldX design.now }
    ensures { narrow.new ≡ put_rows 6 d design.now.covariance.specimens design.now.coefficients (o_rows design.now.covariance.specimens design.now.coefficients (rows_at s a design.now.covariance.specimens design.now.covariance.specimens work.now) (x_rows design.now)) narrow.old }
{
    let n = design.covariance.specimens;
    let p = design.coefficients;
    algebra_large_products::narrow::times_narrow(
        narrow,
        d,
        6,
        work,
        a,
        s,
        design.x,
        0,
        design.x_stride,
        n,
        n,
        p,
    );
}

// Cell (a, b) of OᵀT, with O at o and T at t.
pub fn cross_cell(narrow: &[f64], o: usize, t: usize, n: usize, p: usize, a: usize, b: usize) -> f64
    requires { Holds 6 o n p (length narrow.now) × Holds 6 t n p (length narrow.now) × (a < p) × (b < p) }
    ensures { result ≡ cell floats n (transpose floats p n n p (rows_at 6 o n p narrow.now)) (rows_at 6 t n p narrow.now) a b }
{
    let mut total = 0.0;
    for k in 0..n {
        let u = start(o, 6, k, n, p, narrow.len());
        let v = start(t, 6, k, n, p, narrow.len());
        total = total + narrow[u + a] * narrow[v + b];
    }
    total
}

// P_r, with O_r at o and S X at t.
pub fn p_of(narrow: &[f64], o: usize, t: usize, n: usize, p: usize) -> [[f64; 6]; 6]
    requires { Holds 6 o n p (length narrow.now) × Holds 6 t n p (length narrow.now) }
    ensures { result ≡ p_rows n p (rows_at 6 o n p narrow.now) (rows_at 6 t n p narrow.now) }
{
    let mut out = algebra_products::zeros();
    for a in 0..p {
        for b in 0..p {
            out[a][b] = -1.0 * cross_cell(narrow, o, t, n, p, a, b);
        }
    }
    out
}

// K_rs, with H_r at p and H_s at q.
pub fn k_of(work: &[f64], p: usize, q: usize, s: usize, n: usize) -> f64
    requires { Holds s p n n (length work.now) × Holds s q n n (length work.now) }
    ensures { result ≡ k_cell n (rows_at s p n n work.now) (rows_at s q n n work.now) }
{
    algebra_large_products::narrow::cross_sum(work, p, s, q, s, n)
}

// The row at d gains, for each k by rising index, cell (k, a) of the narrow matrix at o times row k of the matrix at q.
pub fn gain_turned(
    narrow: &mut [f64],
    d: usize,
    o: usize,
    a: usize,
    work: &[f64],
    q: usize,
    s: usize,
    n: usize,
    p: usize,
)
    requires { (d + n ≤ length narrow.old) × Holds 6 o n p (length narrow.old) × Apart d n o (n * 6) × (a < p) × Holds s q n n (length work.now) }
    ensures { narrow.new ≡ put_row d n (λ j. gained_with n (λ k. get_or narrow.old (o + k * 6 + a) nan) work.now q s (get_or narrow.old (d + j) nan) j) narrow.old }
{
    for k in 0..n {
        let u = start(o, 6, k, n, p, narrow.len());
        let b = start(q, s, k, n, n, work.len());
        let f = narrow[u + a];
        algebra_large_products::narrow::gain_from(narrow, d, work, b, n, f);
    }
}

// Row a of OᵀS, at d.
pub fn turned_row(
    narrow: &mut [f64],
    d: usize,
    o: usize,
    a: usize,
    work: &[f64],
    q: usize,
    s: usize,
    n: usize,
    p: usize,
)
    requires { (d + n ≤ length narrow.old) × Holds 6 o n p (length narrow.old) × Apart d n o (n * 6) × (a < p) × Holds s q n n (length work.now) }
    ensures { narrow.new ≡ put_row d n (gained_with n (λ k. get_or narrow.old (o + k * 6 + a) nan) work.now q s plus_zero) narrow.old }
{
    algebra_large::rows::clear_row(narrow, d, n);
    gain_turned(narrow, d, o, a, work, q, s, n, p);
}

// The p rows of n at e become OᵀS, with O at o, and S at q of the work slice.
pub fn fill_turned(
    narrow: &mut [f64],
    e: usize,
    o: usize,
    work: &[f64],
    q: usize,
    s: usize,
    n: usize,
    p: usize,
)
    requires { Holds n e p n (length narrow.old) × Holds 6 o n p (length narrow.old) × Apart e (p * n) o (n * 6) × Holds s q n n (length work.now) }
    ensures { narrow.new ≡ put_rows n e p n (product floats p n p n n (transpose floats p n n p (rows_at 6 o n p narrow.old)) (rows_at s q n n work.now)) narrow.old }
{
    for a in 0..p {
        let d = start(e, n, a, p, n, narrow.len());
        turned_row(narrow, d, o, a, work, q, s, n, p);
    }
}

// Cell (a, b) of M O, with M, p rows of n, at e and O at o.
pub fn wide_cell(narrow: &[f64], e: usize, o: usize, n: usize, p: usize, a: usize, b: usize) -> f64
    requires { Holds n e p n (length narrow.now) × Holds 6 o n p (length narrow.now) × (a < p) × (b < p) }
    ensures { result ≡ cell floats n (rows_at n e p n narrow.now) (rows_at 6 o n p narrow.now) a b }
{
    let u = start(e, n, a, p, n, narrow.len());
    let mut total = 0.0;
    for k in 0..n {
        let v = start(o, 6, k, n, p, narrow.len());
        total = total + narrow[u + k] * narrow[v + b];
    }
    total
}

// M O.
pub fn wide_product(narrow: &[f64], e: usize, o: usize, n: usize, p: usize) -> [[f64; 6]; 6]
    requires { Holds n e p n (length narrow.now) × Holds 6 o n p (length narrow.now) }
    ensures { result ≡ product floats 6 6 p n p (rows_at n e p n narrow.now) (rows_at 6 o n p narrow.now) }
{
    let mut out = algebra_products::zeros();
    for a in 0..p {
        for b in 0..p {
            out[a][b] = wide_cell(narrow, e, o, n, p, a, b);
        }
    }
    out
}
