// The degrees of freedom of several components taken together.
ghost use Rattle.std.specs.Prelude.{◌≡◌, ◌≤◌};
ghost use Rattle.tests.specs.PooledDf.{tolerance, all_within, any_low, expected, pooled, get_fstat_ddf};

use arithmetic::plain::{magnitude, of_count};

// Whether all lie strictly within `tol` of the first.
pub fn all_within(nu: [f64; 6], n: usize, tol: f64) -> bool
    requires { n ≤ 6 }
    ensures { result ≡ all_within n nu tol }
{
    let mut all = true;
    for i in 0..n {
        let near = magnitude(nu[i] - nu[0]) < tol;
        all = all & near;
    }
    all
}

// Whether any is 2 or less.
pub fn any_low(nu: [f64; 6], n: usize) -> bool
    requires { n ≤ 6 }
    ensures { result ≡ any_low n nu }
{
    let mut any = false;
    for i in 0..n {
        let low = nu[i] <= 2.0;
        any = any | low;
    }
    any
}

// E, the sum of the components' expected values.
pub fn expected(nu: [f64; 6], n: usize) -> f64
    requires { n ≤ 6 }
    ensures { result ≡ expected n nu }
{
    let mut sum = 0.0;
    for i in 0..n {
        sum = sum + nu[i] / (nu[i] - 2.0);
    }
    sum
}

// Equality is tested before 2, so that 1 and 1 give 1.
pub fn get_fstat_ddf(nu: [f64; 6], n: usize, tol: f64) -> f64
    requires { n ≤ 6 }
    ensures { result ≡ get_fstat_ddf n nu tol }
{
    let alone = n == 1;
    if alone | all_within(nu, n, tol) {
        return nu[0];
    }
    if any_low(nu, n) {
        return 2.0;
    }
    let e = expected(nu, n);
    2.0 * e / (e - of_count(n))
}

// The tolerance is fixed.
pub fn tolerance() -> f64
    ensures { result ≡ tolerance }
{
    1e-8
}
