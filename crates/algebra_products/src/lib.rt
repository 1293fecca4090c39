// Small matrices, of plain and of marked numbers, by value: the cells up to the sizes given are in use, and zeros stand past them.
#![tactic(auto)]

ghost use Rattle.std.specs.Prelude.{◌≡◌, cond, eqb, ◌≤◌, ◌<◌};
ghost use Rattle.arithmetic.specs.Numbers.{one};
ghost use Rattle.algebra.specs.Table.{blank};
ghost use Rattle.algebra.specs.Kind.{floats, marks, zero_of};
ghost use Rattle.algebra.specs.Product.{cell, product, transpose, like_cells, trace, plus_cells, minus_cells, times_number, over_number, identity};
ghost use Rattle.algebra.specs.Small.{sandwich};
ghost use Rattle.algebra_products.specs.joints.Terms.{with_terms};

use algebra::Matrix;
use algebra::scalar::Scalar;
use arithmetic::Marked;

pub mod cells;
mod marked_product;

// Zeros alone.
pub fn zeros<T: Scalar>() -> Matrix<T>
    ensures { result ≡ blank (zero_of T.arith) 6 6 }
{
    [[T::of(0.0); 6]; 6]
}

// A row of sums, each with one term more: x times the like cell of `terms`.
fn with_terms<T: Scalar>(sums: [T; 6], x: T, terms: [T; 6], cols: usize) -> [T; 6]
    requires { cols ≤ 6 }
    ensures { result ≡ with_terms T.arith cols sums x terms }
{
    let mut out = sums;
    for j in 0..cols {
        out[j] = out[j].plus(x.times(terms[j]));
    }
    out
}

// Row i of a times column j of b: from +0, by rising index.
pub fn cell<T: Scalar>(a: Matrix<T>, b: Matrix<T>, inner: usize, i: usize, j: usize) -> T
    requires { (inner ≤ 6) × (i < 6) × (j < 6) }
    ensures { result ≡ cell T.arith inner a b i j }
{
    let mut sum = T::of(0.0);
    for k in 0..inner {
        sum = sum.plus(a[i][k].times(b[k][j]));
    }
    sum
}

// a, of rows by inner, times b, of inner by cols. A row at a time, so that a cell's sum still runs by rising index, and no matrix is copied.
fn by_rows<T: Scalar>(
    a: Matrix<T>,
    b: Matrix<T>,
    rows: usize,
    inner: usize,
    cols: usize,
) -> Matrix<T>
    requires { (rows ≤ 6) × (inner ≤ 6) × (cols ≤ 6) }
    ensures { result ≡ product T.arith 6 6 rows inner cols a b }
{
    let mut out = zeros();
    for i in 0..rows {
        for k in 0..inner {
            out[i] = with_terms(out[i], a[i][k], b[k], cols);
        }
    }
    out
}

// The product, which marked numbers make in a faster way of their own.
pub trait MatrixProduct: Scalar {
    // a, of rows by inner, times b, of inner by cols.
    fn product(
        a: Matrix<Self>,
        b: Matrix<Self>,
        rows: usize,
        inner: usize,
        cols: usize,
    ) -> Matrix<Self>
        requires { (rows ≤ 6) × (inner ≤ 6) × (cols ≤ 6) }
        ensures { result ≡ product Self.arith 6 6 rows inner cols a b };
}

impl MatrixProduct for f64 {
    fn product(
        a: Matrix<f64>,
        b: Matrix<f64>,
        rows: usize,
        inner: usize,
        cols: usize,
    ) -> Matrix<f64>
        requires { (rows ≤ 6) × (inner ≤ 6) × (cols ≤ 6) }
        ensures { result ≡ product floats 6 6 rows inner cols a b }
    {
        by_rows(a, b, rows, inner, cols)
    }
}

impl MatrixProduct for Marked {
    fn product(
        a: Matrix<Marked>,
        b: Matrix<Marked>,
        rows: usize,
        inner: usize,
        cols: usize,
    ) -> Matrix<Marked>
        requires { (rows ≤ 6) × (inner ≤ 6) × (cols ≤ 6) }
        ensures { result ≡ product marks 6 6 rows inner cols a b }
    {
        marked_product::product(a, b, rows, inner, cols)
    }
}

// a, of rows by inner, times b, of inner by cols.
pub fn product<T: MatrixProduct>(
    a: Matrix<T>,
    b: Matrix<T>,
    rows: usize,
    inner: usize,
    cols: usize,
) -> Matrix<T>
    requires { (rows ≤ 6) × (inner ≤ 6) × (cols ≤ 6) }
    ensures { result ≡ product T.arith 6 6 rows inner cols a b }
{
    T::product(a, b, rows, inner, cols)
}

// The rows of a as columns.
pub fn transpose<T: Scalar>(a: Matrix<T>, rows: usize, cols: usize) -> Matrix<T>
    requires { (rows ≤ 6) × (cols ≤ 6) }
    ensures { result ≡ transpose T.arith 6 6 rows cols a }
{
    let mut out = zeros();
    for i in 0..cols {
        for j in 0..rows {
            out[i][j] = a[j][i];
        }
    }
    out
}

// The sum of the products of like cells, row after row, in one running sum.
pub fn like_cells<T: Scalar>(a: Matrix<T>, b: Matrix<T>, rows: usize, cols: usize) -> T
    requires { (rows ≤ 6) × (cols ≤ 6) }
    ensures { result ≡ like_cells T.arith rows cols a b }
{
    let mut sum = T::of(0.0);
    for i in 0..rows {
        for j in 0..cols {
            sum = sum.plus(a[i][j].times(b[i][j]));
        }
    }
    sum
}

// The sum of the diagonal.
pub fn trace<T: Scalar>(a: Matrix<T>, n: usize) -> T
    requires { n ≤ 6 }
    ensures { result ≡ trace T.arith n a }
{
    let mut sum = T::of(0.0);
    for i in 0..n {
        sum = sum.plus(a[i][i]);
    }
    sum
}

// a + b, cell by cell.
pub fn plus_cells<T: Scalar>(a: Matrix<T>, b: Matrix<T>, rows: usize, cols: usize) -> Matrix<T>
    requires { (rows ≤ 6) × (cols ≤ 6) }
    ensures { result ≡ plus_cells T.arith 6 6 rows cols a b }
{
    let mut out = zeros();
    for i in 0..rows {
        for j in 0..cols {
            out[i][j] = a[i][j].plus(b[i][j]);
        }
    }
    out
}

// a - b, cell by cell.
pub fn minus_cells<T: Scalar>(a: Matrix<T>, b: Matrix<T>, rows: usize, cols: usize) -> Matrix<T>
    requires { (rows ≤ 6) × (cols ≤ 6) }
    ensures { result ≡ minus_cells T.arith 6 6 rows cols a b }
{
    let mut out = zeros();
    for i in 0..rows {
        for j in 0..cols {
            out[i][j] = a[i][j].minus(b[i][j]);
        }
    }
    out
}

// Each cell of a times x.
pub fn times_number<T: Scalar>(a: Matrix<T>, x: T, rows: usize, cols: usize) -> Matrix<T>
    requires { (rows ≤ 6) × (cols ≤ 6) }
    ensures { result ≡ times_number T.arith 6 6 rows cols a x }
{
    let mut out = zeros();
    for i in 0..rows {
        for j in 0..cols {
            out[i][j] = a[i][j].times(x);
        }
    }
    out
}

// Each cell of a divided by x.
pub fn over_number<T: Scalar>(a: Matrix<T>, x: T, rows: usize, cols: usize) -> Matrix<T>
    requires { (rows ≤ 6) × (cols ≤ 6) }
    ensures { result ≡ over_number T.arith 6 6 rows cols a x }
{
    let mut out = zeros();
    for i in 0..rows {
        for j in 0..cols {
            out[i][j] = a[i][j].over(x);
        }
    }
    out
}

// A cell of the identity: 1 on the diagonal.
pub fn unit_cell<T: Scalar>(i: usize, j: usize) -> T
    ensures { result ≡ cond (eqb i j) (T.arith.of one) (zero_of T.arith) }
{
    if i == j {
        return T::of(1.0);
    }
    T::of(0.0)
}

// The identity of n rows.
pub fn identity<T: Scalar>(n: usize) -> Matrix<T>
    requires { n ≤ 6 }
    ensures { result ≡ identity T.arith 6 6 n }
{
    let mut out = zeros();
    for i in 0..n {
        for j in 0..n {
            out[i][j] = unit_cell(i, j);
        }
    }
    out
}

// (l m) lᵀ, for l of q rows and p columns.
pub fn sandwich<T: MatrixProduct>(l: Matrix<T>, m: Matrix<T>, q: usize, p: usize) -> Matrix<T>
    requires { (q ≤ 6) × (p ≤ 6) }
    ensures { result ≡ sandwich T.arith 6 6 q p l m }
{
    let left = product(l, m, q, p, p);
    let turned = transpose(l, q, p);
    product(left, turned, q, p, q)
}
