// One Kenward–Roger contrast test, from a basis and the scaled matrices to its entry. Every step but the moments carries its mark.
ghost use Rattle.std.specs.Prelude.{◌≡◌, ◌≤◌};
ghost use Rattle.algebra.specs.Kind.{marks};
ghost use Rattle.algebra.specs.Product.{product};
ghost use Rattle.tests.specs.KenwardRoger.{scaled_ps, scaling_seen, difference, theta_of, u_of, u_stack, u_values, wald_many, tested, unit_row};
ghost use Rattle.tests_kr_modcomp.specs.joints.Parts.{scaled_of, wald_of, wald_number_of, theta_seen_of, wald_seen_of, entry_of, wald_entry_of, theta_tested_of};
ghost use Rattle.tests.specs.Both.{stack_seen};

use adjustment_response_units::scaled_down;
use algebra_elimination::solve;
use algebra_products::cells::{all_marks, given_cells, values};
use algebra_products::{product, sandwich, transpose, zeros};
use arithmetic::Marked;
use arithmetic_cutoffs::Cutoffs;
use arithmetic_steps::{add, also, given, is_inside, mul, sub, zero_of};
use tests::both::{is_positive, square_one, stack_seen};
use tests::{Basis, Covariances, Entry, Tested, number_of};
use tests_moments::{a1_of, a2_of, df_of, f_of, scaling_of};

// Each of the n matrices P in response units.
pub fn scaled_ps(ps: &[[[f64; 6]; 6]; 4], sigma2: f64, n: usize, p: usize) -> [[[Marked; 6]; 6]; 4]
    requires { (n ≤ 4) × (p ≤ 6) }
    ensures { result ≡ scaled_ps marks p n ps.now sigma2 }
{
    let blank = zeros();
    let mut out = [blank; 4];
    for r in 0..n {
        let m = ps[r];
        let scaled = scaled_down(p, m, sigma2);
        out[r] = scaled;
    }
    out
}

// D = β − β_H, as a column.
pub fn difference(beta: [f64; 6], beta_h: [f64; 6], p: usize) -> [[Marked; 6]; 6]
    requires { p ≤ 6 }
    ensures { result ≡ difference marks p beta beta_h }
{
    let mut out = zeros();
    for i in 0..p {
        out[i][0] = sub(given(beta[i]), given(beta_h[i]));
    }
    out
}

// Θ, from L and A⁻¹L.
pub fn theta_of(l: [[Marked; 6]; 6], x: [[Marked; 6]; 6], p: usize, q: usize) -> [[Marked; 6]; 6]
    requires { (p ≤ 6) × (q ≤ 6) }
    ensures { result ≡ theta_of marks p q l x }
{
    let turned = transpose(l, q, p);
    product(turned, x, p, q, p)
}

// ΘΦ.
pub fn theta_phi(
    l: [[Marked; 6]; 6],
    x: [[Marked; 6]; 6],
    phi: [[Marked; 6]; 6],
    p: usize,
    q: usize,
) -> [[Marked; 6]; 6]
    requires { (p ≤ 6) × (q ≤ 6) }
    ensures { result ≡ product marks 6 6 p p p (theta_of marks p q l x) phi }
{
    let theta = theta_of(l, x, p, q);
    product(theta, phi, p, p, p)
}

// u_i, from ΘΦ and P_i.
pub fn u_of(
    tp: [[Marked; 6]; 6],
    pi: [[Marked; 6]; 6],
    phi: [[Marked; 6]; 6],
    p: usize,
) -> [[Marked; 6]; 6]
    requires { p ≤ 6 }
    ensures { result ≡ u_of marks p tp pi phi }
{
    let left = product(tp, pi, p, p, p);
    product(left, phi, p, p, p)
}

// The matrices u_i, each taken apart as it is made: `plain` gets the values, for the moments, which are unmarked, and the marks are counted with `seen`. A pair of the two was tried: Rattle does not check one with arrays of matrices yet.
pub fn u_split(
    tp: [[Marked; 6]; 6],
    s: &Covariances<Marked>,
    ps: &[[[Marked; 6]; 6]; 4],
    seen: Marked,
    plain: &mut [[[f64; 6]; 6]; 4],
) -> Marked
    requires { (s.now.matrices ≤ 4) × (s.now.p ≤ 6) }
    ensures value { result ≡ stack_seen marks s.now.matrices s.now.p (u_stack marks s.now.matrices s.now.p tp ps.now s.now.phi) seen }
    ensures plain_after { plain.new ≡ u_values marks s.now.matrices s.now.p (u_stack marks s.now.matrices s.now.p tp ps.now s.now.phi) }
{
    let p = s.p;
    let blank = algebra_products::zeros();
    let mut out = [blank; 4];
    let mut all = seen;
    for i in 0..s.matrices {
        let pi = ps[i];
        let u = u_of(tp, pi, s.phi, p);
        out[i] = values(u, p, p);
        all = all_marks(u, p, p, all);
    }
    *plain = out;
    all
}

// The scaling counts in every entry, with all cells of Φ, Φ_A and each P.
pub fn scaling_seen(s: &Covariances<Marked>, ps: &[[[Marked; 6]; 6]; 4], seen: Marked) -> Marked
    requires { (s.now.matrices ≤ 4) × (s.now.p ≤ 6) }
    ensures { result ≡ scaling_seen marks (scaled_of s.now ps.now) seen }
{
    let p = s.p;
    let first = all_marks(s.phi, p, p, seen);
    let second = all_marks(s.phi_a, p, p, first);
    stack_seen(ps, s.matrices, p, second)
}

// What Wald is made of: LD, v = LΦ_ALᵀ and Y = v⁻¹LD.
#[derive(Clone, Copy)]
pub struct WaldParts {
    pub ld: [[Marked; 6]; 6],
    pub v: [[Marked; 6]; 6],
    pub y: [[Marked; 6]; 6],
}

// Wald of several rows: LD · Y.
pub fn wald_many(ld: [[Marked; 6]; 6], y: [[Marked; 6]; 6], q: usize) -> Marked
    requires { q ≤ 6 }
    ensures { result ≡ wald_many marks q ld y }
{
    let mut sum = zero_of();
    for i in 0..q {
        sum = add(sum, mul(ld[i][0], y[i][0]));
    }
    sum
}

// Wald with its mark; +0 where one row's variance gives none.
pub fn solve_wald_quadratic(w: &WaldParts, q: usize) -> Marked
    requires { q ≤ 6 }
    ensures { result ≡ wald_of q w.now }
{
    if q == 1 {
        let variance = w.v[0][0];
        if is_positive(variance.value) {
            return square_one(w.ld[0][0], variance);
        }
        return given(0.0);
    }
    wald_many(w.ld, w.y, q)
}

// Wald as a number or none.
pub fn wald_number(v: [[Marked; 6]; 6], wald: Marked, q: usize) -> Option<f64>
    ensures { result ≡ wald_number_of q v wald }
{
    let one_row = q == 1;
    let variance = v[0][0];
    if one_row & !is_positive(variance.value) {
        return None;
    }
    number_of(wald.value)
}

// The marks of D, A, A⁻¹L and ΘΦ.
pub fn theta_seen(
    d: [[Marked; 6]; 6],
    a: [[Marked; 6]; 6],
    x: [[Marked; 6]; 6],
    tp: [[Marked; 6]; 6],
    p: usize,
    q: usize,
    seen: Marked,
) -> Marked
    requires { (p ≤ 6) × (q ≤ 6) }
    ensures { result ≡ theta_seen_of p q d a x tp seen }
{
    let s1 = all_marks(d, p, 1, seen);
    let s2 = all_marks(a, q, q, s1);
    let s3 = all_marks(x, q, p, s2);
    all_marks(tp, p, p, s3)
}

// The marks of LD, v, Y and Wald. One row needs no Y.
pub fn wald_seen(w: &WaldParts, wald: Marked, q: usize, seen: Marked) -> Marked
    requires { q ≤ 6 }
    ensures { result ≡ wald_seen_of q w.now wald seen }
{
    let s1 = all_marks(w.ld, q, 1, seen);
    let s2 = all_marks(w.v, q, q, s1);
    if q == 1 {
        return also(s2, wald);
    }
    let s3 = all_marks(w.y, q, 1, s2);
    also(s3, wald)
}

// The entry, from the values of the u_i, Wald and what was seen.
pub fn entry_of(
    c: Cutoffs,
    s: &Covariances<Marked>,
    plain: [[[f64; 6]; 6]; 4],
    wald: Option<f64>,
    q: usize,
    seen: Marked,
) -> Entry
    requires { (s.now.matrices ≤ 4) × (s.now.p ≤ 6) × (q ≤ 6) }
    ensures { result ≡ entry_of c s.now q plain wald seen }
{
    let a1 = a1_of(plain, s.w, s.matrices, s.p);
    let a2 = a2_of(plain, s.w, s.matrices, s.p);
    Entry {
        f: f_of(q, scaling_of(c, q, a1, a2), wald),
        df: df_of(c, q, a1, a2),
        rank: q as u8,
        inside: is_inside(seen),
    }
}

// The entry, from the values of the u_i, Wald's parts and what was seen before these.
pub fn wald_entry(
    c: Cutoffs,
    s: &Covariances<Marked>,
    plain: [[[f64; 6]; 6]; 4],
    w: &WaldParts,
    q: usize,
    seen: Marked,
) -> Entry
    requires { (s.now.matrices ≤ 4) × (s.now.p ≤ 6) × (q ≤ 6) }
    ensures { result ≡ wald_entry_of c s.now q plain w.now seen }
{
    let wald = solve_wald_quadratic(w, q);
    let number = wald_number(w.v, wald, q);
    let all = wald_seen(w, wald, q, seen);
    entry_of(c, s, plain, number, q, all)
}

// The test, but for Wald's elimination: from L, D, Wald's parts and what was seen of the basis and the scaling. A zero pivot of A refuses it.
pub fn theta_entry(
    c: Cutoffs,
    s: &Covariances<Marked>,
    ps: &[[[Marked; 6]; 6]; 4],
    l: [[Marked; 6]; 6],
    d: [[Marked; 6]; 6],
    w: &WaldParts,
    q: usize,
    seen: Marked,
) -> Tested
    requires { (s.now.matrices ≤ 4) × (s.now.p ≤ 6) × (q ≤ 6) }
    ensures { result ≡ theta_tested_of c s.now ps.now q l d w.now seen }
{
    let p = s.p;
    let a = sandwich(l, s.phi, q, p);
    let solved = solve(a, l, q, p);
    let x = solved.cells;
    let tp = theta_phi(l, x, s.phi, p, q);
    let before = theta_seen(d, a, x, tp, p, q, seen);
    let mut plain = [[[0.0; 6]; 6]; 4];
    let all = u_split(tp, s, ps, before, &mut plain);
    let entry = wald_entry(c, s, plain, w, q, all);
    Tested {
        refused: solved.refused,
        entry,
    }
}

// A test, for the basis of its contrast. A zero pivot refuses the test, of Wald's elimination where several rows need it.
pub fn kr_modcomp_full_rank(
    c: Cutoffs,
    s: &Covariances<Marked>,
    ps: &[[[Marked; 6]; 6]; 4],
    beta: [f64; 6],
    beta_h: [f64; 6],
    b: Basis<Marked>,
) -> Tested
    requires { (s.now.matrices ≤ 4) × (s.now.p ≤ 6) × (b.rank ≤ 6) }
    ensures { result ≡ tested marks c (scaled_of s.now ps.now) beta beta_h b }
{
    let p = s.p;
    let q = b.rank;
    let l = given_cells(b.rows, q, p);
    let d = difference(beta, beta_h, p);
    let ld = product(l, d, q, p, 1);
    let v = sandwich(l, s.phi_a, q, p);
    let of_v = solve(v, ld, q, 1);
    let y = of_v.cells;
    let seen = scaling_seen(s, ps, b.seen);
    let t = theta_entry(c, s, ps, l, d, &WaldParts { ld, v, y }, q, seen);
    let several = q != 1;
    Tested {
        refused: t.refused | (several & of_v.refused),
        entry: t.entry,
    }
}

// The contrast of coefficient i alone.
pub fn unit_row(p: usize, i: usize) -> [[f64; 6]; 6]
    requires { p ≤ 6 }
    ensures { result ≡ unit_row p i }
{
    let mut out = algebra_products::zeros();
    for j in 0..p {
        out[0][j] = algebra_products::unit_cell(j, i);
    }
    out
}
