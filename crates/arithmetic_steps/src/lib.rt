// The marked steps: + - * / and the square root on numbers that carry their mark.
#![tactic(auto)]

ghost use Rattle.std.specs.Prelude.{◌≡◌};
ghost use Rattle.arithmetic.specs.Numbers.{plus_zero};
ghost use Rattle.arithmetic.specs.Marks.{no_mark, join_marks, in_range, step_mark, lost_product, lost_quotient, reported, with_product, marked, given, is_inside, marked_add, marked_sub, marked_mul, marked_div, marked_root, marked_magnitude, also, also_mark};

use arithmetic::Marked;
use arithmetic::plain::{is_zero, magnitude};
use arithmetic::root::sqrt;

// A mark by itself. Above this file a mark is made and looked at by these functions alone.
pub type Mark = bool;

// 2^-800 and 2^801.
const LEAST: f64 = 1.499696813895631e-241;

const LIMIT: f64 = 1.333602886575971e+241;

// Zero, or of a binary exponent from -800 to 800. The number itself is compared, on both sides of zero, so that there is no branch.
pub fn in_range(x: f64) -> bool
    ensures { result ≡ in_range x }
{
    (x < LIMIT) & (-LIMIT < x) & ((LEAST <= x) | (x <= -LEAST) | is_zero(x))
}

// The mark of a step on a and b with the rounded result r.
pub fn step_mark(a: Marked, b: Marked, r: f64) -> bool
    ensures { result ≡ step_mark a b r }
{
    a.inside & b.inside & (in_range(a.value) & in_range(b.value)) & in_range(r)
}

// Whether r is a zero product of factors that are not zero.
pub fn lost_product(x: f64, y: f64, r: f64) -> bool
    ensures { result ≡ lost_product x y r }
{
    is_zero(r) & (!is_zero(x) & !is_zero(y))
}

// Whether r is a zero quotient of a numerator that is not zero.
pub fn lost_quotient(x: f64, r: f64) -> bool
    ensures { result ≡ lost_quotient x r }
{
    is_zero(r) & !is_zero(x)
}

// The mark that counts nothing.
pub fn no_mark() -> Mark
    ensures { result ≡ no_mark }
{
    true
}

// What either mark counts.
pub fn join_marks(m: Mark, n: Mark) -> Mark
    ensures { result ≡ join_marks m n }
{
    m & n
}

// What a counts as an operand: its mark, and its number's own.
pub fn reported(a: Marked) -> Mark
    ensures { result ≡ reported a }
{
    a.inside & in_range(a.value)
}

// The number without its mark.
pub fn value_of(a: Marked) -> f64
    ensures { result ≡ a.value }
{
    a.value
}

// a + x * y, whose mark counts a's and the two results, and nothing of x and y: theirs are counted apart.
pub fn with_product(a: Marked, x: f64, y: f64) -> Marked
    ensures { result ≡ with_product a x y }
{
    let p = x * y;
    let r = a.value + p;
    Marked {
        value: r,
        inside: a.inside & (in_range(p) & !lost_product(x, y, p)) & in_range(r),
    }
}

// An input or a constant: no step led to it.
pub fn given(x: f64) -> Marked
    ensures { result ≡ given x }
{
    Marked {
        value: x,
        inside: true,
    }
}

// +0, from which sums start.
pub fn zero_of() -> Marked
    ensures { result ≡ given plus_zero }
{
    given(0.0)
}

// +0 with the mark `inside`: what was lent as a bool becomes a marked number again at once.
pub fn seen_of(inside: bool) -> Marked
    ensures { result ≡ marked plus_zero inside }
{
    Marked {
        value: 0.0,
        inside: inside,
    }
}

// Whether every step up to a was inside.
pub fn is_inside(a: Marked) -> bool
    ensures { result ≡ is_inside a }
{
    a.inside
}

pub fn add(a: Marked, b: Marked) -> Marked
    ensures { result ≡ marked_add a b }
{
    let r = a.value + b.value;
    Marked {
        value: r,
        inside: step_mark(a, b, r),
    }
}

pub fn sub(a: Marked, b: Marked) -> Marked
    ensures { result ≡ marked_sub a b }
{
    let r = a.value - b.value;
    Marked {
        value: r,
        inside: step_mark(a, b, r),
    }
}

pub fn mul(a: Marked, b: Marked) -> Marked
    ensures { result ≡ marked_mul a b }
{
    let r = a.value * b.value;
    Marked {
        value: r,
        inside: step_mark(a, b, r) & !lost_product(a.value, b.value, r),
    }
}

pub fn div(a: Marked, b: Marked) -> Marked
    ensures { result ≡ marked_div a b }
{
    let r = a.value / b.value;
    Marked {
        value: r,
        inside: step_mark(a, b, r) & !lost_quotient(a.value, r),
    }
}

pub fn square_root(a: Marked) -> Marked
    ensures { result ≡ marked_root a }
{
    let r = sqrt(a.value);
    Marked {
        value: r,
        inside: a.inside & in_range(a.value) & in_range(r),
    }
}

// The sign cleared: no step.
pub fn unsigned(a: Marked) -> Marked
    ensures { result ≡ marked_magnitude a }
{
    Marked {
        value: magnitude(a.value),
        inside: a.inside,
    }
}

// The number a, whose mark counts b's too.
pub fn also(a: Marked, b: Marked) -> Marked
    ensures { result ≡ also a b }
{
    Marked {
        value: a.value,
        inside: a.inside & b.inside,
    }
}

// The number a, whose mark counts m too.
pub fn also_mark(a: Marked, m: Mark) -> Marked
    ensures { result ≡ also_mark a m }
{
    Marked {
        value: a.value,
        inside: a.inside & m,
    }
}
