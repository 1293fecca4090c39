// One case: its matrices are read, and the algorithm that its first word names is run on plain and on marked numbers.
ghost use Rattle.std.specs.Prelude.{◌≤◌};

use crate::print::{self, Printed};
use algebra::Matrix;
use algebra::scalar::Scalar;
use algebra_elimination::Solved;
use algebra_jacobi::JacobiState;
use algebra_products::MatrixProduct;
use arithmetic::Marked;

// 2^-100, the factor of the rotation test.
const LIMIT: f64 = 7.888609052210118e-31;

// The numbers of rows and of columns of a product's parts: A has `rows` by `inner` cells, B `inner` by `columns`.
#[derive(Clone, Copy)]
struct Extents {
    rows: usize,
    inner: usize,
    columns: usize,
    ghost few_rows: { rows ≤ 6 },
    ghost few_inner: { inner ≤ 6 },
    ghost few_columns: { columns ≤ 6 },
}

#[derive(Clone, Copy)]
enum Algorithm {
    Products,
    Solutions,
    Rotations,
}

impl TryFrom<u8> for Algorithm {
    type Error = ();

    fn try_from(number: u8) -> Result<Self, ()> {
        match number {
            1 => Ok(Algorithm::Products),
            2 => Ok(Algorithm::Solutions),
            3 => Ok(Algorithm::Rotations),
            _ => Err(()),
        }
    }
}

// A matrix out of the text of its cells, row by row.
fn matrix_of(text: &[u8]) -> Matrix<f64> {
    let mut out = [[0.0; 6]; 6];
    let (words, _) = text.as_chunks::<17>();
    for (row, six) in out.iter_mut().zip(words.chunks_exact(6)) {
        for (x, word) in row.iter_mut().zip(six) {
            *x = arithmetic::plain::of_bits(table_bits_text::word_at(word, 0));
        }
    }
    out
}

// A size from 0 to 6 out of a byte of the first word.
fn size_of(byte: u8) -> usize
    ensures { result ≤ 6 }
{
    usize::from(byte % 7)
}

// What needs more than like cells: the products, and what is summed.
fn chained<T: MatrixProduct + Printed>(a: Matrix<T>, b: Matrix<T>, e: Extents) {
    print::matrix(algebra_products::sandwich(a, b, e.rows, e.inner));
    algebra_products::like_cells(a, b, e.rows, e.inner).print();
    algebra_products::trace(a, e.rows).print();
}

fn cellwise<T: Scalar + Printed>(a: Matrix<T>, b: Matrix<T>, e: Extents) {
    print::matrix(algebra_products::plus_cells(a, b, e.rows, e.inner));
    print::matrix(algebra_products::minus_cells(a, b, e.rows, e.inner));
    print::matrix(algebra_products::times_number(a, b[0][0], e.rows, e.inner));
    print::matrix(algebra_products::over_number(a, b[0][0], e.rows, e.inner));
}

fn products(a: Matrix<f64>, b: Matrix<f64>, e: Extents) {
    print::matrix(algebra_products::product(a, b, e.rows, e.inner, e.columns));
    print::matrix(algebra_products::transpose(a, e.rows, e.inner));
    chained(a, b, e);
    cellwise(a, b, e);
    print::matrix(algebra_products::identity::<f64>(e.columns));
}

fn marked_products(a: Matrix<Marked>, b: Matrix<Marked>, e: Extents) {
    print::matrix(algebra_products::product(a, b, e.rows, e.inner, e.columns));
    chained(a, b, e);
    algebra_products::cells::all_marks(a, e.rows, e.inner, a[0][0]).print();
    cellwise(a, b, e);
}

fn solved<T: Printed>(x: Solved<T>) {
    print::flag(x.refused);
    print::matrix(x.cells);
}

// At each kind by itself: for any kind it was tried, and what a `Solved` takes in memory stays open.
fn solutions(a: Matrix<f64>, b: Matrix<f64>, e: Extents) {
    solved(algebra_elimination::solve(a, b, e.inner, e.columns));
    solved(algebra_elimination::inverse(a, e.inner));
}

fn marked_solutions(a: Matrix<Marked>, b: Matrix<Marked>, e: Extents) {
    solved(algebra_elimination::solve(a, b, e.inner, e.columns));
    solved(algebra_elimination::inverse(a, e.inner));
}

fn turned<T: Printed>(x: JacobiState<T>) {
    print::matrix(x.matrix);
    print::matrix(x.vectors);
}

// At each kind by itself: plain numbers have no mark to print.
fn rotations(m: Matrix<f64>, e: Extents) {
    let rotated = algebra_jacobi::jacobi(m, e.inner, LIMIT);
    print::count(rotated.count);
    turned(rotated);
}

fn marked_rotations(m: Matrix<Marked>, e: Extents) {
    let rotated = algebra_jacobi::jacobi(m, e.inner, LIMIT);
    print::count(rotated.count);
    print::flag(!arithmetic_steps::is_inside(rotated.seen));
    turned(rotated);
}

// The algorithm's number stands above three sizes, a byte each, in the low half of the first word.
pub fn run(text: &[u8; 1241]) {
    let head = table_bits_text::word_at(text, 0);
    let a = matrix_of(&text[17..629]);
    let b = matrix_of(&text[629..]);
    let [.., number, rows, inner, columns] = head.to_be_bytes();
    let e = Extents {
        rows: size_of(rows),
        inner: size_of(inner),
        columns: size_of(columns),
    };
    table_bits_text::print_word(head);
    io::write_all(1, b"\n");
    // Another number runs nothing.
    if let Ok(algorithm) = Algorithm::try_from(number) {
        apply(algorithm, a, b, e);
    }
}

fn apply(algorithm: Algorithm, a: Matrix<f64>, b: Matrix<f64>, e: Extents) {
    let ma = algebra_products::cells::given_cells(a, 6, 6);
    let mb = algebra_products::cells::given_cells(b, 6, 6);
    match algorithm {
        Algorithm::Products => {
            products(a, b, e);
            marked_products(ma, mb, e);
        }
        Algorithm::Solutions => {
            solutions(a, b, e);
            marked_solutions(ma, mb, e);
        }
        Algorithm::Rotations => {
            rotations(a, e);
            marked_rotations(ma, e);
        }
    }
}
