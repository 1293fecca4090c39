// A rotation of Jacobi's, on either kind of number: its angle, and a pair, a row and the columns of a matrix turned by it.
#![tactic(auto)]

ghost use Rattle.std.specs.Prelude.{◌≡◌, ◌<◌, ◌≤◌};
ghost use Rattle.algebra.specs.Jacobi.{ratio, tangent, cosine, sine, turned_first, turned_second, turn_row, turn_columns};

use algebra::Matrix;
use algebra::scalar::Scalar;
use arithmetic::plain::sign;

// z: the difference of the diagonal cells over twice the cell beside them.
pub fn ratio<T: Scalar>(aa: T, bb: T, ab: T) -> T
    ensures { result ≡ ratio T.arith aa bb ab }
{
    bb.minus(aa).over(T::of(2.0).times(ab))
}

// t, the smaller of the two tangents that clear the cell.
pub fn tangent<T: Scalar>(z: T) -> T
    ensures { result ≡ tangent T.arith z }
{
    let root = z.times(z).plus(T::of(1.0)).root();
    T::of(sign(z.value())).over(z.unsigned().plus(root))
}

// c, from t.
pub fn cosine<T: Scalar>(t: T) -> T
    ensures { result ≡ cosine T.arith t }
{
    T::of(1.0).over(t.times(t).plus(T::of(1.0)).root())
}

// s, from t and c.
pub fn sine<T: Scalar>(t: T, c: T) -> T
    ensures { result ≡ sine T.arith t c }
{
    t.times(c)
}

// The pair (x, y) turned: its first number.
pub fn turned_first<T: Scalar>(c: T, s: T, x: T, y: T) -> T
    ensures { result ≡ turned_first T.arith c s x y }
{
    c.times(x).minus(s.times(y))
}

// The pair (x, y) turned: its second number.
pub fn turned_second<T: Scalar>(c: T, s: T, x: T, y: T) -> T
    ensures { result ≡ turned_second T.arith c s x y }
{
    s.times(x).plus(c.times(y))
}

// Both new cells come from the old ones.
pub fn turn_row<T: Scalar>(row: [T; 6], p: usize, q: usize, c: T, s: T) -> [T; 6]
    requires { (p < 6) × (q < 6) }
    ensures { result ≡ turn_row T.arith p q c s row }
{
    let mut out = row;
    out[p] = turned_first(c, s, row[p], row[q]);
    out[q] = turned_second(c, s, row[p], row[q]);
    out
}

pub fn turn_columns<T: Scalar>(m: Matrix<T>, n: usize, p: usize, q: usize, c: T, s: T) -> Matrix<T>
    requires { (n ≤ 6) × (p < 6) × (q < 6) }
    ensures { result ≡ turn_columns T.arith n p q c s m }
{
    let mut out = m;
    for i in 0..n {
        out[i] = turn_row(m[i], p, q, c, s);
    }
    out
}
