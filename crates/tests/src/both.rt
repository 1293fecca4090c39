// What both tests take.
ghost use Rattle.std.specs.Prelude.{◌≡◌, ◌≤◌};
ghost use Rattle.tests.specs.Both.{is_positive, square_one, stack_seen};
ghost use Rattle.algebra.specs.Kind.{marks};

use algebra_products::cells::all_marks;
use arithmetic::Marked;
use arithmetic::plain::is_finite;
use arithmetic_steps::{div, mul, square_root};

// Finite and above zero: what one row's variance, a2, r and an eigenvalue have to be.
pub fn is_positive(x: f64) -> bool
    ensures { result ≡ is_positive x }
{
    is_finite(x) & (0.0 < x)
}

// The square of one row, whatever its variance is.
pub fn square_one(ld: Marked, v: Marked) -> Marked
    ensures { result ≡ square_one marks ld v }
{
    let t = div(ld, square_root(v));
    mul(t, t)
}

// `seen`, with the marks of n matrices counted.
pub fn stack_seen(ms: &[[[Marked; 6]; 6]; 4], n: usize, q: usize, seen: Marked) -> Marked
    requires { (n ≤ 4) × (q ≤ 6) }
    ensures { result ≡ stack_seen marks n q ms.now seen }
{
    let mut all = seen;
    for i in 0..n {
        let m = ms[i];
        all = all_marks(m, q, q, all);
    }
    all
}
