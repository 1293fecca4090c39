// The product of marked numbers, with the marks of rows, of columns and of the results of the steps counted apart.
ghost use Rattle.std.specs.Prelude.{◌≡◌, ◌≤◌};
ghost use Rattle.algebra.specs.Kind.{marks};
ghost use Rattle.algebra.specs.Product.{product};
ghost use Rattle.algebra_products.specs.joints.CellMarks.{Finite, column_marks, adds_nothing};

use crate::zeros;
use algebra::Matrix;
use arithmetic::Marked;
use arithmetic::plain::{is_finite, is_zero};
use arithmetic_steps::{
    Mark, also_mark, join_marks, no_mark, reported, value_of, with_product, zero_of,
};

// What a product needs of its right factor, made once for all rows: the marks of each column, joined, and whether every number is finite.
#[derive(Clone, Copy)]
struct Columns {
    marks: [Mark; 6],
    finite: bool,
}

// The columns of b, of inner rows. A sum is finite only where each of its terms is: one total tells it of all numbers. Where the total overflows, no turn is passed over.
fn column_marks(b: Matrix<Marked>, inner: usize, cols: usize) -> Columns
    requires { (inner ≤ 6) × (cols ≤ 6) }
    ensures { (result.marks ≡ column_marks 6 cols inner b) × Finite result.finite inner cols b }
{
    let none = no_mark();
    let mut marks = [none; 6];
    let mut total = 0.0;
    for j in 0..cols {
        let mut mark = no_mark();
        for k in 0..inner {
            let y = b[k][j];
            mark = join_marks(mark, reported(y));
            total = total + value_of(y);
        }
        marks[j] = mark;
    }
    Columns {
        marks: marks,
        finite: is_finite(total),
    }
}

// Whether a turn with x on the left adds nothing: x is a zero, and so, where every number on the right is finite, is each product.
// No mark is looked at: the marks of the row and of the columns are counted apart, whether a turn is passed over or not.
fn adds_nothing(x: f64, finite: bool) -> bool
    ensures { result ≡ adds_nothing x finite }
{
    finite & is_zero(x)
}

// a, of rows by inner, times b, of inner by cols; `columns` and `finite` are what column_marks says of b.
// A row at a time: a cell's sum still runs by rising index. A sum's mark counts the results of its steps alone; the row's and the column's are joined to it at the end.
fn product_rows(
    a: Matrix<Marked>,
    b: Matrix<Marked>,
    columns: [Mark; 6],
    finite: bool,
    rows: usize,
    inner: usize,
    cols: usize,
) -> Matrix<Marked>
    requires { (rows ≤ 6) × (inner ≤ 6) × (cols ≤ 6) × (columns ≡ column_marks 6 cols inner b) × Finite finite inner cols b }
    ensures { result ≡ product marks 6 6 rows inner cols a b }
{
    let mut out = zeros();
    for i in 0..rows {
        let zero = zero_of();
        let mut sums = [zero; 6];
        let mut row = no_mark();
        for k in 0..inner {
            let x = a[i][k];
            let v = value_of(x);
            row = join_marks(row, reported(x));
            if !adds_nothing(v, finite) {
                for j in 0..cols {
                    sums[j] = with_product(sums[j], v, value_of(b[k][j]));
                }
            }
        }
        for j in 0..cols {
            out[i][j] = also_mark(sums[j], join_marks(row, columns[j]));
        }
    }
    out
}

// a, of rows by inner, times b, of inner by cols.
pub fn product(
    a: Matrix<Marked>,
    b: Matrix<Marked>,
    rows: usize,
    inner: usize,
    cols: usize,
) -> Matrix<Marked>
    requires { (rows ≤ 6) × (inner ≤ 6) × (cols ≤ 6) }
    ensures { result ≡ product marks 6 6 rows inner cols a b }
{
    let right = column_marks(b, inner, cols);
    let columns = right.marks;
    product_rows(a, b, columns, right.finite, rows, inner, cols)
}
