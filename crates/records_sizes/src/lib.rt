// The sizes of a file, from the largest indices of its records, by which of the four it is (`Shape`).
#![tactic(auto)]

ghost use Rattle.std.specs.Prelude.{◌≡◌, ℕ, ◌+◌, ◌<◌, max, cond, eqb};
ghost use Rattle.algebra.specs.Table.{row};
ghost use Rattle.records.specs.format.Scan.{most};
ghost use Rattle.records.specs.format.Kinds.{kind_numbers};
ghost use Rattle.records.specs.format.File.{count, kind_of, rows, columns};
ghost use Rattle.records.specs.readers.Series.{sizes as seriesSizes};
ghost use Rattle.records.specs.readers.Parameters.{sizes as parameterSizes};
ghost use Rattle.records.specs.readers.Archive.{sizes as archiveSizes};
ghost use Rattle.records.specs.readers.SecondFile.{sizes as secondSizes};
ghost use Rattle.records_sizes.specs.joints.Gathered.{sizes_of};

use records::{Shape, Sizes};
use records_file::{column_at, index, kind_of, row_at};

// The library's `max`, with its answer as the definitions say it.
fn larger(a: usize, b: usize) -> usize
    ensures { result ≡ max a b }
{
    a.max(b)
}

// A series has a specimen and a coefficient; a test has a coefficient, a contrast row and a parameter; an archive a coefficient and a parameter.
fn at_least_one(n: usize) -> usize
    ensures { result ≡ max 1 n }
{
    n.max(1)
}

// One more than the largest number that a field has, of each kind's records.
fn tops_of<F: Fn(usize) -> usize>(s: &[u8], field: F) -> [usize; 33]
    requires callable { (i : ℕ) → i < count s.now → F.pre field i }
    requires small { (i x : ℕ) → F.post field i x → x < 256 }
    ensures { (f : ℕ → ℕ) → ((i x : ℕ) → F.post field i x → x ≡ f i) → result ≡ row 0 kind_numbers kind_numbers (λ k. most (count s.now) (λ i. cond (eqb (kind_of s.now i) k) (f i + 1) 0)) }
{
    let mut tops = [0usize; 33];
    for i in 0..s.len() / 16 {
        let k = index(kind_of(s, i));
        if k < 33 {
            tops[k] = larger(tops[k], field(i) + 1);
        }
    }
    tops
}

// One more than the largest row of each kind's records, and the largest column.
fn rows_of(s: &[u8]) -> [usize; 33]
    ensures { result ≡ row 0 kind_numbers kind_numbers (rows s.now) }
{
    tops_of(s, |i| row_at(s, i))
}

fn columns_of(s: &[u8]) -> [usize; 33]
    ensures { result ≡ row 0 kind_numbers kind_numbers (columns s.now) }
{
    tops_of(s, |i| column_at(s, i))
}

// The sizes of a series.
pub fn series_sizes(s: &[u8]) -> Sizes
    ensures { result ≡ seriesSizes s.now }
{
    let rows = rows_of(s);
    let columns = columns_of(s);
    let contrasts = rows[9];
    Sizes {
        specimens: at_least_one(rows[1]),
        coefficients: at_least_one(columns[1]),
        columns: columns[2],
        blocks: rows[3],
        thetas: rows[4],
        contrasts: contrasts,
        parameters: 0,
        weighted: rows[5] != 0,
        hypothesis: (rows[10] != 0) & (contrasts != 0),
    }
}

// The sizes of a Satterthwaite test.
pub fn parameter_sizes(s: &[u8]) -> Sizes
    ensures { result ≡ parameterSizes s.now }
{
    let rows = rows_of(s);
    let columns = columns_of(s);
    let parameters = larger(rows[32], columns[32]);
    Sizes {
        specimens: 0,
        coefficients: at_least_one(rows[8]),
        columns: 0,
        blocks: 0,
        thetas: 0,
        contrasts: at_least_one(rows[9]),
        parameters: at_least_one(parameters),
        weighted: false,
        hypothesis: rows[10] != 0,
    }
}

// The sizes of an archive.
pub fn archive_sizes(s: &[u8]) -> Sizes
    ensures { result ≡ archiveSizes s.now }
{
    let rows = rows_of(s);
    let columns = columns_of(s);
    let coefficients = larger(rows[11], columns[11]);
    let parameters = larger(rows[14], columns[14]);
    Sizes {
        specimens: 0,
        coefficients: at_least_one(coefficients),
        columns: 0,
        blocks: 0,
        thetas: 0,
        contrasts: 0,
        parameters: at_least_one(parameters),
        weighted: false,
        hypothesis: false,
    }
}

// The sizes of the second file.
pub fn second_sizes(s: &[u8]) -> Sizes
    ensures { result ≡ secondSizes s.now }
{
    let rows = rows_of(s);
    let contrasts = rows[9];
    let hypotheses = rows[10];
    Sizes {
        specimens: 0,
        coefficients: at_least_one(rows[8]),
        columns: 0,
        blocks: 0,
        thetas: 0,
        contrasts: contrasts,
        parameters: 0,
        weighted: false,
        hypothesis: (hypotheses != 0) & (contrasts != 0),
    }
}

pub fn sizes_of(file: Shape, s: &[u8]) -> Sizes
    ensures { result ≡ sizes_of file s.now }
{
    match file {
        Shape::Series => series_sizes(s),
        Shape::Test => parameter_sizes(s),
        Shape::Archived => archive_sizes(s),
        Shape::Second => second_sizes(s),
    }
}
