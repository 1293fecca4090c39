// From the Hs and the Os to IE: the small Ps, Qs and IE by value. k is the number of matrices.
#![tactic(auto)]

ghost use Rattle.std.specs.Prelude.{◌≡◌, ◌+◌, ◌*◌, ◌<◌, ◌≤◌, length};
ghost use Rattle.algebra.specs.Kind.{floats};
ghost use Rattle.algebra.specs.Product.{product};
ghost use Rattle.algebra_large.specs.joints.Slab.{rows_at, put_rows};
ghost use Rattle.adjustment.specs.Information.{p_rows, q_rows, mirror};
ghost use Rattle.adjustment.specs.Adjusted.{stack, q_stack};
ghost use Rattle.adjustment_work.specs.joints.Work.{part, Sized};
ghost use Rattle.adjustment_work.specs.joints.Steps.{s_at, sx_at, o_at, o_transposed_s, o_transposed_s_to, q_row_to, ie_at, upper_cell, upper};

use adjustment::packing::index_symmat2vec;
use adjustment_work::squares::{part_at, square_at};

// The Ps, of S X and the Os in the narrow slice.
pub fn ps_of(narrow: &[f64], s: usize, n: usize, p: usize, k: usize) -> [[[f64; 6]; 6]; 4]
    requires { (n ≤ s) × (p ≤ 6) × (6 * (6 * s) ≤ length narrow.now) × (k ≤ 4) }
    ensures { result ≡ stack 4 k (λ r. p_rows n p (o_at s n p narrow.now r) (sx_at s n p narrow.now)) }
{
    let blank = algebra_products::zeros();
    let mut out = [blank; 4];
    for r in 0..k {
        let t = part_at(s, 0, narrow.len());
        let o = part_at(s, 1 + r, narrow.len());
        let m = adjustment_covariance::information::p_of(narrow, o, t, n, p);
        out[r] = m;
    }
    out
}

// The Qs of r, where part 5 holds O_rᵀS, put at their places.
pub fn q_products(
    narrow: &[f64],
    s: usize,
    n: usize,
    p: usize,
    k: usize,
    r: usize,
    qs: [[[f64; 6]; 6]; 10],
) -> [[[f64; 6]; 6]; 10]
    requires { (n ≤ s) × (p ≤ 6) × (6 * (6 * s) ≤ length narrow.now) × (k ≤ 4) × (r < k) }
    ensures { result ≡ q_row_to k r k (λ t. product floats 6 6 p n p (rows_at n (part s 5) p n narrow.now) (o_at s n p narrow.now t)) qs }
{
    let mut out = qs;
    for t in r..k {
        let e = part_at(s, 5, narrow.len());
        let o = part_at(s, 1 + t, narrow.len());
        let m = adjustment_covariance::information::wide_product(narrow, e, o, n, p);
        let at = index_symmat2vec(r, t, k);
        out[at] = m;
    }
    out
}

// The same, with O_rᵀS put into part 5 first: it serves every Q of r.
pub fn q_row(
    narrow: &mut [f64],
    s: usize,
    work: &[f64],
    n: usize,
    p: usize,
    k: usize,
    r: usize,
    qs: [[[f64; 6]; 6]; 10],
) -> [[[f64; 6]; 6]; 10]
    requires { Sized n p s (length work.now) (length narrow.old) × (k ≤ 4) × (r < k) }
    ensures value { result ≡ q_row_to k r k (λ t. q_rows n p (o_at s n p narrow.old r) (s_at s n work.now) (o_at s n p narrow.old t)) qs }
    ensures narrow_after { narrow.new ≡ put_rows n (part s 5) p n (o_transposed_s n p (o_at s n p narrow.old r) (s_at s n work.now)) narrow.old }
{
    let q = square_at(s, 1, work.len());
    let e = part_at(s, 5, narrow.len());
    let o = part_at(s, 1 + r, narrow.len());
    adjustment_covariance::information::fill_turned(narrow, e, o, work, q, s, n, p);
    q_products(narrow, s, n, p, k, r, qs)
}

// The Qs, packed.
pub fn qs_of(
    narrow: &mut [f64],
    s: usize,
    work: &[f64],
    n: usize,
    p: usize,
    k: usize,
) -> [[[f64; 6]; 6]; 10]
    requires { Sized n p s (length work.now) (length narrow.old) × (k ≤ 4) }
    ensures value { result ≡ q_stack k (λ r t. q_rows n p (o_at s n p narrow.old r) (s_at s n work.now) (o_at s n p narrow.old t)) }
    ensures narrow_after { narrow.new ≡ o_transposed_s_to s n p k (o_at s n p narrow.old) (s_at s n work.now) narrow.old }
{
    let blank = algebra_products::zeros();
    let mut out = [blank; 10];
    for r in 0..k {
        let next = q_row(narrow, s, work, n, p, k, r, out);
        out = next;
    }
    out
}

// IE_rt, of H_r and H_t in the work slice.
pub fn ie_at(
    work: &[f64],
    s: usize,
    n: usize,
    p: usize,
    k: usize,
    phi: [[f64; 6]; 6],
    ps: [[[f64; 6]; 6]; 4],
    qs: [[[f64; 6]; 6]; 10],
    r: usize,
    t: usize,
) -> f64
    requires { (n ≤ s) × (p ≤ 6) × (6 * (s * s) ≤ length work.now) × (k ≤ 4) × (r < k) × (t < k) }
    ensures { result ≡ ie_at s n p k phi ps qs work.now r t }
{
    let a = square_at(s, 2 + r, work.len());
    let b = square_at(s, 2 + t, work.len());
    let trace = adjustment_covariance::information::k_of(work, a, b, s, n);
    let at = index_symmat2vec(r, t, k);
    let q = qs[at];
    let first = ps[r];
    let second = ps[t];
    adjustment_adjusted::information::ie_cell(p, trace, phi, q, first, second)
}

// A cell of IE's upper half, and zero below it: no cell is made twice.
pub fn upper_cell(
    work: &[f64],
    s: usize,
    n: usize,
    p: usize,
    k: usize,
    phi: [[f64; 6]; 6],
    ps: [[[f64; 6]; 6]; 4],
    qs: [[[f64; 6]; 6]; 10],
    r: usize,
    t: usize,
) -> f64
    requires { (n ≤ s) × (p ≤ 6) × (6 * (s * s) ≤ length work.now) × (k ≤ 4) × (r < k) × (t < k) }
    ensures { result ≡ upper_cell (ie_at s n p k phi ps qs work.now) r t }
{
    if r <= t {
        return ie_at(work, s, n, p, k, phi, ps, qs, r, t);
    }
    0.0
}

// IE's upper half.
pub fn upper_half(
    work: &[f64],
    s: usize,
    n: usize,
    p: usize,
    k: usize,
    phi: [[f64; 6]; 6],
    ps: [[[f64; 6]; 6]; 4],
    qs: [[[f64; 6]; 6]; 10],
) -> [[f64; 6]; 6]
    requires { (n ≤ s) × (p ≤ 6) × (6 * (s * s) ≤ length work.now) × (k ≤ 4) }
    ensures { result ≡ upper k (ie_at s n p k phi ps qs work.now) }
{
    let mut out = algebra_products::zeros();
    for r in 0..k {
        for t in 0..k {
            out[r][t] = upper_cell(work, s, n, p, k, phi, ps, qs, r, t);
        }
    }
    out
}

// IE: its upper half, mirrored.
pub fn ie_of(
    work: &[f64],
    s: usize,
    n: usize,
    p: usize,
    k: usize,
    phi: [[f64; 6]; 6],
    ps: [[[f64; 6]; 6]; 4],
    qs: [[[f64; 6]; 6]; 10],
) -> [[f64; 6]; 6]
    requires { (n ≤ s) × (p ≤ 6) × (6 * (s * s) ≤ length work.now) × (k ≤ 4) }
    ensures { result ≡ mirror k (ie_at s n p k phi ps qs work.now) }
{
    let half = upper_half(work, s, n, p, k, phi, ps, qs);
    algebra_jacobi::mirrored(half, k)
}
