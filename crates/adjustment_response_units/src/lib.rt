// The matrices of the adjustment in response units, times sigma2 or over it; and the search for a number that is not finite.
#![tactic(auto)]

ghost use Rattle.std.specs.Prelude.{◌≡◌, false, ◌||◌, ℕ, ◌≤◌};
ghost use Rattle.algebra.specs.Kind.{marks};
ghost use Rattle.algebra.specs.Fold.{fold};
ghost use Rattle.adjustment.specs.Adjusted.{scaled_up, scaled_down, not_all_finite, not_all_finite_marked, matrix_at, output_not_finite};

use arithmetic::Marked;
use arithmetic::plain::is_finite;
use arithmetic_steps::given;

// m times sigma2, as marked steps.
pub fn scaled_up(p: usize, m: [[f64; 6]; 6], sigma2: f64) -> [[Marked; 6]; 6]
    requires { p ≤ 6 }
    ensures { result ≡ scaled_up marks p m sigma2 }
{
    let cells = algebra_products::cells::given_cells(m, p, p);
    let x = given(sigma2);
    algebra_products::times_number(cells, x, p, p)
}

// m divided by sigma2, as marked steps.
pub fn scaled_down(p: usize, m: [[f64; 6]; 6], sigma2: f64) -> [[Marked; 6]; 6]
    requires { p ≤ 6 }
    ensures { result ≡ scaled_down marks p m sigma2 }
{
    let cells = algebra_products::cells::given_cells(m, p, p);
    let x = given(sigma2);
    algebra_products::over_number(cells, x, p, p)
}

// Whether some cell is a NaN or an infinity.
pub fn not_all_finite(rows: usize, cols: usize, m: [[f64; 6]; 6]) -> bool
    requires { (rows ≤ 6) × (cols ≤ 6) }
    ensures { result ≡ not_all_finite rows cols m }
{
    let mut found = false;
    for i in 0..rows {
        for j in 0..cols {
            found = found | !is_finite(m[i][j]);
        }
    }
    found
}

// The same of the values of marked cells.
pub fn not_all_finite_marked(rows: usize, cols: usize, m: [[Marked; 6]; 6]) -> bool
    requires { (rows ≤ 6) × (cols ≤ 6) }
    ensures { result ≡ not_all_finite_marked rows cols m }
{
    let mut found = false;
    for i in 0..rows {
        for j in 0..cols {
            let x = m[i][j];
            found = found | !is_finite(x.value);
        }
    }
    found
}

// Whether some cell of a P, or of it over sigma2, is not finite.
pub fn ps_not_finite(p: usize, n: usize, ps: [[[f64; 6]; 6]; 4], sigma2: f64) -> bool
    requires { (p ≤ 6) × (n ≤ 4) }
    ensures { result ≡ fold 0 n (λ r z. z || not_all_finite p p (matrix_at ps r) || not_all_finite_marked p p (scaled_down marks p (matrix_at ps r) sigma2)) false }
{
    let mut found = false;
    for r in 0..n {
        let m = ps[r];
        let plain = not_all_finite(p, p, m);
        let down = scaled_down(p, m, sigma2);
        let scaled = not_all_finite_marked(p, p, down);
        found = found | plain | scaled;
    }
    found
}

// Whether some cell of m times sigma2 is not finite.
pub fn scaled_not_finite(p: usize, m: [[f64; 6]; 6], sigma2: f64) -> bool
    requires { p ≤ 6 }
    ensures { result ≡ not_all_finite_marked p p (scaled_up marks p m sigma2) }
{
    let up = scaled_up(p, m, sigma2);
    not_all_finite_marked(p, p, up)
}

// Whether some number of the output, scaled or not, is not finite; the count of rotations does not matter.
pub fn output_not_finite(
    p: usize,
    n: usize,
    phi: [[f64; 6]; 6],
    sigma2: f64,
    adjusted: [[f64; 6]; 6],
    ps: [[[f64; 6]; 6]; 4],
    w: [[f64; 6]; 6],
) -> bool
    requires { (p ≤ 6) × (n ≤ 4) }
    ensures { (k : ℕ) → result ≡ output_not_finite p n phi sigma2 (record { phi_a = adjusted; ps = ps; w = w; rotations = k }) }
{
    let plain = not_all_finite(p, p, adjusted);
    let inverse = not_all_finite(n, n, w);
    let before = scaled_not_finite(p, phi, sigma2);
    let after = scaled_not_finite(p, adjusted, sigma2);
    let each = ps_not_finite(p, n, ps, sigma2);
    plain | inverse | before | after | each
}
