// The degrees of freedom of one variance, from its gradient in the parameters and their covariance A.
ghost use Rattle.std.specs.Prelude.{◌≡◌, ◌≤◌, ◌<◌, replicate};
ghost use Rattle.std.specs.Float.{binary64};
ghost use Rattle.std.specs.Float.Ieee.{mul};
ghost use Rattle.arithmetic.specs.Numbers.{plus_zero};
ghost use Rattle.arithmetic.specs.Marks.{given, also};
ghost use Rattle.algebra.specs.Fold.{fold};
ghost use Rattle.algebra.specs.Kind.{floats, marks};
ghost use Rattle.algebra.specs.Product.{at};
ghost use Rattle.tests.specs.VarianceDf.{entry_at, relative_gradient, gradient_values, relative_variance, df_of_relative, variance_df, gradient_seen};

use arithmetic::Marked;
use arithmetic_steps::{also, div, zero_of};
use tests::both::is_positive;

// Six zeros, for rows of marked numbers.
pub fn no_marks() -> [Marked; 6]
    ensures { result ≡ replicate 6 (given plus_zero) }
{
    let zero = zero_of();
    [zero; 6]
}

// g, the gradient in units of the variance: squares of tiny or large variances do not arise.
pub fn relative_gradient(variance: Marked, gradient: [Marked; 6], n: usize) -> [Marked; 6]
    requires { n ≤ 6 }
    ensures { result ≡ relative_gradient marks n variance gradient }
{
    let mut out = no_marks();
    for i in 0..n {
        out[i] = div(gradient[i], variance);
    }
    out
}

// What the parameters j and k add to r.
pub fn qform_term(g: [Marked; 6], a: [[f64; 6]; 6], j: usize, k: usize) -> f64
    requires { (j < 6) × (k < 6) }
    ensures { result ≡ mul binary64 (mul binary64 (entry_at marks g j).value (at floats a j k)) (entry_at marks g k).value }
{
    let first = g[j];
    let second = g[k];
    first.value * a[j][k] * second.value
}

// r, over all pairs of parameters, row after row.
pub fn qform_grad(g: [Marked; 6], a: [[f64; 6]; 6], n: usize) -> f64
    requires { n ≤ 6 }
    ensures { result ≡ relative_variance floats n (gradient_values marks n g) a }
{
    let mut sum = 0.0;
    for j in 0..n {
        for k in 0..n {
            sum = sum + qform_term(g, a, j, k);
        }
    }
    sum
}

// 2/r, or none.
pub fn df_of_relative(r: f64) -> Option<f64>
    ensures { result ≡ df_of_relative r }
{
    if is_positive(r) { Some(2.0 / r) } else { None }
}

// The degrees of freedom of a variance; none for one that is not finite and positive.
pub fn variance_df(
    variance: Marked,
    gradient: [Marked; 6],
    a: [[f64; 6]; 6],
    n: usize,
) -> Option<f64>
    requires { n ≤ 6 }
    ensures { result ≡ variance_df marks n a variance gradient }
{
    if is_positive(variance.value) {
        let g = relative_gradient(variance, gradient, n);
        return df_of_relative(qform_grad(g, a, n));
    }
    None
}

// `seen`, with the marks of n numbers counted.
pub fn row_seen(g: [Marked; 6], n: usize, seen: Marked) -> Marked
    requires { n ≤ 6 }
    ensures { result ≡ fold 0 n (λ i s. also s (entry_at marks g i)) seen }
{
    let mut all = seen;
    for i in 0..n {
        all = also(all, g[i]);
    }
    all
}

// `seen`, with the marks of g counted where g is made.
pub fn gradient_seen(variance: Marked, gradient: [Marked; 6], n: usize, seen: Marked) -> Marked
    requires { n ≤ 6 }
    ensures { result ≡ gradient_seen marks n variance gradient seen }
{
    if is_positive(variance.value) {
        let g = relative_gradient(variance, gradient, n);
        return row_seen(g, n, seen);
    }
    seen
}
