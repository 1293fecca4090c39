// The unmarked part of a Kenward–Roger test: from the matrices u_i and W to a1 and a2, and from these to the degrees of freedom and the scaling of F.
#![tactic(auto)]

ghost use Rattle.std.specs.Prelude.{◌≡◌, ◌≤◌, ◌<◌, [], get_or};
ghost use Rattle.std.specs.Float.{nan, binary64};
ghost use Rattle.std.specs.Float.Ieee.{mul};
ghost use Rattle.arithmetic.specs.Numbers.{plus_zero, one, of_count};
ghost use Rattle.algebra.specs.Fold.{fold};
ghost use Rattle.algebra.specs.Table.{row};
ghost use Rattle.algebra.specs.Kind.{floats};
ghost use Rattle.algebra.specs.Product.{trace, like_cells, transpose};
ghost use Rattle.std.specs.Prelude.{Some};
ghost use Rattle.tests.specs.Answer.{number_of};
ghost use Rattle.tests.specs.Moments.{weight, a1_of, a2_of, b_of, g_of, d_of, c1_of, c2_of, c3_of, leading_of, v0_of, v1_of, v2_of, div_of, less_a2, rho_of, positive, general_df, rank_one, df_of, scaling_at, scaling_of, f_of};

use arithmetic::plain::{magnitude, of_count};
use arithmetic_cutoffs::Cutoffs;
use tests::both::is_positive;
use tests::number_of;

// W_ij counts once on the diagonal and twice off it, since only i ≤ j is summed.
pub fn weight(w: &[[f64; 6]; 6], i: usize, j: usize) -> f64
    requires { (i < 6) × (j < 6) }
    ensures { result ≡ weight w.now i j }
{
    if i == j {
        return 1.0 * w[i][j];
    }
    2.0 * w[i][j]
}

// The trace of u_i.
pub fn spur(m: [[f64; 6]; 6], p: usize) -> f64
    requires { p ≤ 6 }
    ensures { result ≡ trace floats p m }
{
    algebra_products::trace(m, p)
}

// The traces of n matrices, each taken once for all the pairs that it is in.
pub fn traces(us: &[[[f64; 6]; 6]; 4], n: usize, p: usize) -> [f64; 4]
    requires { (n ≤ 4) × (p ≤ 6) }
    ensures { result ≡ row plus_zero 4 n (λ i. trace floats p (get_or us.now i [])) }
{
    let mut out = [0.0; 4];
    for i in 0..n {
        let u = us[i];
        out[i] = spur(u, p);
    }
    out
}

// The sum of the products of like cells of u_i and u_j transposed. The transpose is read off u_j, and not made.
pub fn sum_ui_t_uj<'a>(ui: &'a [[f64; 6]; 6], uj: &'a [[f64; 6]; 6], p: usize) -> f64
    requires { p ≤ 6 }
    ensures { result ≡ like_cells floats p p ui.now (transpose floats 6 6 p p uj.now) }
{
    let mut sum = 0.0;
    for i in 0..p {
        for j in 0..p {
            sum = sum + ui[i][j] * uj[j][i];
        }
    }
    sum
}

// What i and j add to a1, from the traces.
pub fn a1_term(w: &[[f64; 6]; 6], ts: &[f64; 4], i: usize, j: usize) -> f64
    requires { (i < 4) × (j < 4) }
    ensures { result ≡ mul binary64 (mul binary64 (weight w.now i j) (get_or ts.now i nan)) (get_or ts.now j nan) }
{
    weight(w, i, j) * ts[i] * ts[j]
}

// What i and j add to a2.
pub fn a2_term(us: &[[[f64; 6]; 6]; 4], w: &[[f64; 6]; 6], p: usize, i: usize, j: usize) -> f64
    requires { (p ≤ 6) × (i < 4) × (j < 4) }
    ensures { result ≡ mul binary64 (weight w.now i j) (like_cells floats p p (get_or us.now i []) (transpose floats 6 6 p p (get_or us.now j []))) }
{
    weight(w, i, j) * sum_ui_t_uj(&us[i], &us[j], p)
}

// The sum of a1 over the pairs i ≤ j, row after row, from the traces.
fn a1_sum(w: &[[f64; 6]; 6], ts: &[f64; 4], n: usize) -> f64
    requires { n ≤ 4 }
    ensures { result ≡ fold 0 n (λ i s. fold i n (λ j s. floats.plus s (mul binary64 (mul binary64 (weight w.now i j) (get_or ts.now i nan)) (get_or ts.now j nan))) s) plus_zero }
{
    let mut sum = 0.0;
    for i in 0..n {
        for j in i..n {
            sum = sum + a1_term(w, ts, i, j);
        }
    }
    sum
}

// a1, over the pairs i ≤ j of n matrices, row after row.
pub fn a1_of(us: [[[f64; 6]; 6]; 4], w: [[f64; 6]; 6], n: usize, p: usize) -> f64
    requires { (n ≤ 4) × (p ≤ 6) }
    ensures { result ≡ a1_of n p w us }
{
    let ts = traces(&us, n, p);
    a1_sum(&w, &ts, n)
}

// a2, over the same pairs.
pub fn a2_of(us: [[[f64; 6]; 6]; 4], w: [[f64; 6]; 6], n: usize, p: usize) -> f64
    requires { (n ≤ 4) × (p ≤ 6) }
    ensures { result ≡ a2_of n p w us }
{
    let mut sum = 0.0;
    for i in 0..n {
        for j in i..n {
            sum = sum + a2_term(&us, &w, p, i, j);
        }
    }
    sum
}

// B.
pub fn b_of(q: usize, a1: f64, a2: f64) -> f64
    requires { q ≤ 6 }
    ensures { result ≡ b_of q a1 a2 }
{
    (a1 + 6.0 * a2) / (2.0 * of_count(q))
}

// g: zero for an a2 that is next to zero.
pub fn g_of(c: Cutoffs, q: usize, a1: f64, a2: f64) -> f64
    requires { q ≤ 6 }
    ensures { result ≡ g_of c q a1 a2 }
{
    if c.moment < magnitude(a2) {
        return (of_count(q + 1) * a1 - of_count(q + 4) * a2) / (of_count(q + 2) * a2);
    }
    0.0
}

// d, the denominator of c1, c2 and c3.
pub fn d_of(c: Cutoffs, q: usize, a1: f64, a2: f64) -> f64
    requires { q ≤ 6 }
    ensures { result ≡ d_of c q a1 a2 }
{
    3.0 * of_count(q) + 2.0 * (1.0 - g_of(c, q, a1, a2))
}

// c1: zero for a d that is next to zero.
pub fn c1_of(c: Cutoffs, q: usize, a1: f64, a2: f64) -> f64
    requires { q ≤ 6 }
    ensures { result ≡ c1_of c q a1 a2 }
{
    let d = d_of(c, q, a1, a2);
    if c.moment < magnitude(d) {
        return g_of(c, q, a1, a2) / d;
    }
    0.0
}

pub fn c2_of(c: Cutoffs, q: usize, a1: f64, a2: f64) -> f64
    requires { q ≤ 6 }
    ensures { result ≡ c2_of c q a1 a2 }
{
    (of_count(q) - g_of(c, q, a1, a2)) / d_of(c, q, a1, a2)
}

pub fn c3_of(c: Cutoffs, q: usize, a1: f64, a2: f64) -> f64
    requires { q ≤ 6 }
    ensures { result ≡ c3_of c q a1 a2 }
{
    (of_count(q) + 2.0 - g_of(c, q, a1, a2)) / d_of(c, q, a1, a2)
}

// What is next to zero is zero: for V0 and V2.
pub fn leading_of(c: Cutoffs, x: f64) -> f64
    ensures { result ≡ leading_of c x }
{
    if magnitude(x) < c.leading {
        return 0.0;
    }
    x
}

pub fn v0_of(c: Cutoffs, q: usize, a1: f64, a2: f64) -> f64
    requires { q ≤ 6 }
    ensures { result ≡ v0_of c q a1 a2 }
{
    leading_of(c, 1.0 + c1_of(c, q, a1, a2) * b_of(q, a1, a2))
}

pub fn v1_of(c: Cutoffs, q: usize, a1: f64, a2: f64) -> f64
    requires { q ≤ 6 }
    ensures { result ≡ v1_of c q a1 a2 }
{
    1.0 - c2_of(c, q, a1, a2) * b_of(q, a1, a2)
}

pub fn v2_of(c: Cutoffs, q: usize, a1: f64, a2: f64) -> f64
    requires { q ≤ 6 }
    ensures { result ≡ v2_of c q a1 a2 }
{
    leading_of(c, 1.0 - c3_of(c, q, a1, a2) * b_of(q, a1, a2))
}

// A quotient that is zero where its denominator is next to zero.
pub fn div_zero(c: Cutoffs, num: f64, denom: f64) -> f64
    ensures { result ≡ div_of c num denom }
{
    if magnitude(denom) < c.divisor {
        return 0.0;
    }
    num / denom
}

// 1 − a2/q.
pub fn less_a2(q: usize, a2: f64) -> f64
    requires { q ≤ 6 }
    ensures { result ≡ less_a2 q a2 }
{
    1.0 - a2 / of_count(q)
}

// The quotient of ρ that is squared.
pub fn rho_root(c: Cutoffs, q: usize, a1: f64, a2: f64) -> f64
    requires { q ≤ 6 }
    ensures { result ≡ div_of c (less_a2 q a2) (v1_of c q a1 a2) }
{
    div_zero(c, less_a2(q, a2), v1_of(c, q, a1, a2))
}

// The last factor of ρ.
pub fn rho_factor(c: Cutoffs, q: usize, a1: f64, a2: f64) -> f64
    requires { q ≤ 6 }
    ensures { result ≡ div_of c (v0_of c q a1 a2) (v2_of c q a1 a2) }
{
    div_zero(c, v0_of(c, q, a1, a2), v2_of(c, q, a1, a2))
}

// ρ: (1/q)·root²·factor, multiplied from the left.
pub fn rho_of(c: Cutoffs, q: usize, a1: f64, a2: f64) -> f64
    requires { q ≤ 6 }
    ensures { result ≡ rho_of c q a1 a2 }
{
    let root = rho_root(c, q, a1, a2);
    let factor = rho_factor(c, q, a1, a2);
    (1.0 / of_count(q)) * (root * root) * factor
}

// A df that is positive; zero, a negative number and a NaN are none.
pub fn positive(x: f64) -> Option<f64>
    ensures { result ≡ positive x }
{
    if 0.0 < x { Some(x) } else { None }
}

// qρ − 1.
pub fn excess_of(c: Cutoffs, q: usize, a1: f64, a2: f64) -> f64
    requires { q ≤ 6 }
    ensures { result ≡ floats.minus (floats.times (of_count q) (rho_of c q a1 a2)) one }
{
    of_count(q) * rho_of(c, q, a1, a2) - 1.0
}

// df by the moment equations; none where qρ is next to 1.
pub fn general_df(c: Cutoffs, q: usize, a1: f64, a2: f64) -> Option<f64>
    requires { q ≤ 6 }
    ensures { result ≡ general_df c q a1 a2 }
{
    let e = excess_of(c, q, a1, a2);
    if c.excess < magnitude(e) {
        return positive(4.0 + (of_count(q) + 2.0) / e);
    }
    None
}

// One row, with an a2 that has a df of its own.
pub fn rank_one(q: usize, a2: f64) -> bool
    ensures { result ≡ rank_one q a2 }
{
    let one_row = q == 1;
    one_row & is_positive(a2)
}

pub fn df_of(c: Cutoffs, q: usize, a1: f64, a2: f64) -> Option<f64>
    requires { q ≤ 6 }
    ensures { result ≡ df_of c q a1 a2 }
{
    if rank_one(q, a2) {
        return Some(2.0 / a2);
    }
    general_df(c, q, a1, a2)
}

// The scaling of F for a df that is a number: 1 next to 2, where the quotient has no limit.
pub fn scaling_of_df(c: Cutoffs, q: usize, a2: f64, df: f64) -> Option<f64>
    requires { q ≤ 6 }
    ensures { result ≡ scaling_at c q a2 (Some df) }
{
    let beyond = df - 2.0;
    if magnitude(beyond) < c.near {
        return Some(1.0);
    }
    number_of(df * less_a2(q, a2) / beyond)
}

// The scaling of F; none for no df.
pub fn scaling_at(c: Cutoffs, q: usize, a2: f64, df: Option<f64>) -> Option<f64>
    requires { q ≤ 6 }
    ensures { result ≡ scaling_at c q a2 df }
{
    scaling_of_df(c, q, a2, df?)
}

pub fn scaling_of(c: Cutoffs, q: usize, a1: f64, a2: f64) -> Option<f64>
    requires { q ≤ 6 }
    ensures { result ≡ scaling_of c q a1 a2 }
{
    if rank_one(q, a2) {
        return Some(1.0);
    }
    scaling_at(c, q, a2, general_df(c, q, a1, a2))
}

// F for a scaling and a Wald that are numbers.
pub fn f_of_numbers(q: usize, scaling: f64, wald: f64) -> Option<f64>
    requires { q ≤ 6 }
    ensures { result ≡ f_of q (Some scaling) (Some wald) }
{
    number_of(scaling * (wald / of_count(q)))
}

// F; none where the scaling or Wald is none.
pub fn f_of(q: usize, scaling: Option<f64>, wald: Option<f64>) -> Option<f64>
    requires { q ≤ 6 }
    ensures { result ≡ f_of q scaling wald }
{
    f_of_numbers(q, scaling?, wald?)
}
