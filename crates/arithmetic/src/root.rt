// The square root, correctly rounded, over whole numbers.
ghost use Rattle.std.specs.Prelude.{◌≡◌, ◌+◌, ◌*◌, ◌^◌, ◌<◌, ◌≤◌};
ghost use Rattle.arithmetic.specs.SquareRoot.{whole_root, square_root, missing_digits};
ghost use Rattle.arithmetic.specs.joints.RootPattern.{root_bits, root_pattern};

use crate::plain::to_bits;

// The whole part of the square root of a * 2^44, digit by digit: two binary digits of it are brought down a turn, and give one of the root.
fn digit_root(a: u64) -> u64
    ensures { result ≡ whole_root 54 (a * 2 ^ 44) }
{
    let mut r: u64 = 0;
    let mut rem: u64 = 0;
    let mut rest = a;
    for i in 0..54u64 {
        rem = rem * 4 + (rest >> 62);
        rest = rest << 2;
        let t = r * 4 + 1;
        if t <= rem {
            rem = rem - t;
            r = r * 2 + 1;
        } else {
            r = r * 2;
        }
    }
    r
}

// A number a few below the whole root of a * 2^44, for an a of 63 or 64 digits: Newton's steps on 1 / root in f64, from the bit pattern halved.
// Nothing but its size is promised, since it is checked.
fn guess(a: u64) -> u64
    ensures { result < 2 ^ 54 }
{
    let z = (a >> 11) as f64;
    let y0 = f64::from_bits(6908217610613372841 - to_bits(z) / 2 % 4611686018427387904);
    let y1 = y0 * (1.5 - z * y0 * y0);
    let y2 = y1 * (1.5 - z * y1 * y1);
    let y = y2 * (1.5 - z * y2 * y2);
    let x = z + z;
    let r = x * y;
    let s = r + y * 0.5 * (x - r * r);
    // The last 53 digits of the pattern are those of the root, and 2 is taken off for the rounding.
    (to_bits(s) % 9007199254740992 + 9007199254740991) % 9007199254740992 * 2
}

// What the square of g leaves of a * 2^44, where that is a few times g; 2^63 otherwise. The halves of g are squared apart.
fn remainder(a: u64, g: u64) -> u64
    requires { g < 2 ^ 54 }
    ensures { result < 2 ^ 63 → g * g + result ≡ a * 2 ^ 44 }
{
    let h = g >> 27;
    let l = g % 134217728;
    let upper = h * h * 1024;
    if a < upper {
        return 9223372036854775808;
    }
    let d = a - upper;
    if 1099511627776 <= d {
        return 9223372036854775808;
    }
    let cross = h * l;
    if d * 65536 < cross {
        return 9223372036854775808;
    }
    let e = d * 65536 - cross;
    if 1073741824 <= e {
        return 9223372036854775808;
    }
    let lower = l * l;
    if e * 268435456 < lower {
        return 9223372036854775808;
    }
    e * 268435456 - lower
}

// How many of the four numbers after g are up to the root, by what their squares take of rem; w is twice g.
fn further(w: u64, rem: u64) -> u64
    requires { w < 2 ^ 55 }
    ensures { result ≤ 4 }
{
    let two = u64::from(w + 1 <= rem) + u64::from(w * 2 + 4 <= rem);
    two + u64::from(w * 3 + 9 <= rem) + u64::from(w * 4 + 16 <= rem)
}

// The whole part of the square root of a * 2^44: a guess, kept where it is the one number whose square is at most that and whose successor's is not.
pub fn whole_root(a: u64) -> u64
    ensures { result ≡ whole_root 54 (a * 2 ^ 44) }
{
    let g = guess(a);
    let rem = remainder(a, g);
    let w = g * 2;
    let k = further(w, rem);
    let t = k * (w + k);
    if t <= rem {
        if rem <= t + w + k * 2 {
            return g + k;
        }
    }
    digit_root(a)
}

// How many zeros follow t to make 53 digits of it: the leading zeros of 64 digits less those of 53.
pub fn missing(t: u64) -> u64
    requires { (0 < t) × (t < 2 ^ 53) }
    ensures { result ≡ missing_digits t }
{
    u64::from(t.leading_zeros() - 11)
}

// The pattern of the root of m * 2^(n - 1126). An odd exponent gives its 1 to the radicand.
pub fn rooted(m: u64, n: u64) -> u64
    requires { (2 ^ 52 ≤ m) × (m < 2 ^ 53) × (n < 2099) }
    ensures { result ≡ root_pattern m n }
{
    let p = n % 2;
    let q = (whole_root(m << (10 + p)) + 1) / 2;
    (n / 2 + 485) * 4503599627370496 + q
}

// The pattern of the root of the value of the pattern b, which is positive and finite. A subnormal is normalised first.
pub fn root_bits(b: u64) -> u64
    requires { (0 < b) × (b < 2047 * 2 ^ 52) }
    ensures { result ≡ root_bits b }
{
    let field = b / 4503599627370496;
    let digits = b % 4503599627370496;
    if field == 0 {
        let s = missing(digits);
        rooted(digits << s, 52 - s)
    } else {
        rooted(4503599627370496 + digits, field + 51)
    }
}

// The square root, correctly rounded.
pub fn sqrt(x: f64) -> f64
    ensures { result ≡ square_root x }
{
    if x != x {
        return x;
    }
    if x == 0.0 {
        return x;
    }
    if x < 0.0 {
        return 0.0 / 0.0;
    }
    let b = f64::to_bits(x);
    if b < 9218868437227405312 {
        f64::from_bits(root_bits(b))
    } else {
        x
    }
}
