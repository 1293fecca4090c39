// Plain f64 numbers: what rounds nothing.
ghost use Rattle.std.specs.Prelude.{◌≡◌, ◌^◌, ◌≤◌};
ghost use Rattle.std.specs.Float.Ieee.{is_nan, of_bits, to_bits};
ghost use Rattle.std.specs.Float.{binary64};
ghost use Rattle.arithmetic.specs.Numbers.{magnitude, is_zero, is_finite, sign, is_larger, of_count};

// The value without its sign, of -0 too.
pub fn magnitude(x: f64) -> f64
    ensures { result ≡ magnitude x }
{
    if x == 0.0 {
        return 0.0;
    }
    if x < 0.0 { -x } else { x }
}

pub fn is_zero(x: f64) -> bool
    ensures { result ≡ is_zero x }
{
    x == 0.0
}

// A NaN, and nothing else, differs from itself.
pub fn is_nan(x: f64) -> bool
    ensures { result ≡ is_nan x }
{
    x != x
}

// Between the infinities. Both comparisons fail for a NaN.
pub fn is_finite(x: f64) -> bool
    ensures { result ≡ is_finite x }
{
    let infinity = 1.0 / 0.0;
    (-infinity < x) & (x < infinity)
}

// -1 below zero, and 1 otherwise.
pub fn sign(x: f64) -> f64
    ensures { result ≡ sign x }
{
    if x < 0.0 { -1.0 } else { 1.0 }
}

// Whether the magnitude of x is strictly larger than that of y.
pub fn is_larger(x: f64, y: f64) -> bool
    ensures { result ≡ is_larger x y }
{
    magnitude(y) < magnitude(x)
}

// A count as a number: exact, since an f64 holds every whole number up to 2^53.
pub fn of_count(n: usize) -> f64
    requires { n ≤ 2 ^ 53 }
    ensures { result ≡ of_count n }
{
    n as f64
}

// The number of a bit pattern. Each pattern above the infinity's is a NaN's, whatever its sign.
pub fn of_bits(b: u64) -> f64
    ensures { result ≡ of_bits binary64 b }
{
    if 9218868437227405312 < b % 9223372036854775808 {
        return 0.0 / 0.0;
    }
    f64::from_bits(b)
}

// The bit pattern of a number, of every NaN the same one.
pub fn to_bits(x: f64) -> u64
    ensures { result ≡ to_bits binary64 x }
{
    if x != x {
        return 9221120237041090560;
    }
    f64::to_bits(x)
}
