// The tables of kinds, as code: what sizes leave each kind, and what a field may hold, for any of the four files (`Shape`).
#![tactic(auto)]

ghost use Rattle.std.specs.Prelude.{◌≡◌, cond};
ghost use Rattle.records.specs.format.Kinds.{holds, width, index_of, value_holds, by_row_and_column, by_row, by_count, alone, absent_is_zero, by_block, unread, kind_at, kenward_roger_kinds, satterthwaite_kinds, archive_kinds, test_kinds, kinds_of, limits};

use records::{Field, Kind, Shape, Sizes, Value};

// What a field may hold.
pub fn holds(f: Field, x: usize) -> bool
    ensures { result ≡ holds f x }
{
    match f {
        Field::Index(limit) => x < limit,
        Field::Number => true,
        Field::Unused => x == 0,
    }
}

// How many cells it tells apart.
pub fn width(f: Field) -> usize
    ensures { result ≡ width f }
{
    match f {
        Field::Index(limit) => limit,
        Field::Number => 1,
        Field::Unused => 1,
    }
}

// The index by which it names one of them.
pub fn index_of(f: Field, x: usize) -> usize
    ensures { result ≡ index_of f x }
{
    match f {
        Field::Index(_) => x,
        Field::Number => 0,
        Field::Unused => 0,
    }
}

// What the value bits may be.
pub fn value_holds(v: Value, bits: u64) -> bool
    ensures { result ≡ value_holds v bits }
{
    match v {
        Value::Float => true,
        Value::FirstByte => bits < 256,
    }
}

// A kind whose cells are named by row and column; where cells may be absent, as Z's, it is sparse.
fn by_row_and_column(rows: usize, columns: usize) -> Kind
    ensures { result ≡ by_row_and_column rows columns }
{
    Kind {
        count: Field::Unused,
        row: Field::Index(rows),
        column: Field::Index(columns),
        value: Value::Float,
        sparse: false,
    }
}

fn absent_is_zero(rows: usize, columns: usize) -> Kind
    ensures { result ≡ absent_is_zero rows columns }
{
    Kind {
        count: Field::Unused,
        row: Field::Index(rows),
        column: Field::Index(columns),
        value: Value::Float,
        sparse: true,
    }
}

// By the row alone.
fn by_row(rows: usize) -> Kind
    ensures { result ≡ by_row rows }
{
    Kind {
        count: Field::Unused,
        row: Field::Index(rows),
        column: Field::Unused,
        value: Value::Float,
        sparse: false,
    }
}

// By count, row and column.
fn by_count(counts: usize, rows: usize, columns: usize) -> Kind
    ensures { result ≡ by_count counts rows columns }
{
    Kind {
        count: Field::Index(counts),
        row: Field::Index(rows),
        column: Field::Index(columns),
        value: Value::Float,
        sparse: false,
    }
}

// One cell.
fn alone() -> Kind
    ensures { result ≡ alone }
{
    Kind {
        count: Field::Unused,
        row: Field::Unused,
        column: Field::Unused,
        value: Value::Float,
        sparse: false,
    }
}

// A block: its number is the row, k and m are numbers, and its parameter count stands in the first value byte.
fn block_kind(rows: usize) -> Kind
    ensures { result ≡ by_block rows }
{
    Kind {
        count: Field::Number,
        row: Field::Index(rows),
        column: Field::Number,
        value: Value::FirstByte,
        sparse: false,
    }
}

// A kind that is not read.
fn unread() -> Kind
    ensures { result ≡ unread }
{
    Kind {
        count: Field::Unused,
        row: Field::Index(0),
        column: Field::Unused,
        value: Value::Float,
        sparse: false,
    }
}

// n where there is something, 0 where there is nothing.
pub fn given(b: bool, n: usize) -> usize
    ensures { result ≡ cond b n 0 }
{
    if b { n } else { 0 }
}

// Kenward and Roger's: X, Z, block, theta, weight, Φ, sigma2, β, contrast, β_H.
fn kenward_roger_kind(z: Sizes, kind: u8) -> Kind
    ensures { result ≡ kind_at (kenward_roger_kinds z) kind }
{
    let n = z.specimens;
    let p = z.coefficients;
    match kind {
        1 => by_row_and_column(n, p),
        2 => absent_is_zero(n, z.columns),
        3 => block_kind(z.blocks),
        4 => by_row(z.thetas),
        5 => by_row(given(z.weighted, n)),
        6 => by_row_and_column(p, p),
        7 => alone(),
        8 => by_row(p),
        9 => by_row_and_column(z.contrasts, p),
        10 => by_row(given(z.hypothesis, p)),
        _ => unread(),
    }
}

// Satterthwaite's: β, contrast, β_H; v, Jacobian, A.
fn satterthwaite_kind(z: Sizes, kind: u8) -> Kind
    ensures { result ≡ kind_at (satterthwaite_kinds z) kind }
{
    let p = z.coefficients;
    let n = z.parameters;
    match kind {
        8 => by_row(p),
        9 => by_row_and_column(z.contrasts, p),
        10 => by_row(given(z.hypothesis, p)),
        30 => by_row_and_column(p, p),
        31 => by_count(n, p, p),
        32 => by_row_and_column(n, n),
        _ => unread(),
    }
}

// An archive's: Φ, Φ_A, each P and W in response units; Φ, Φ_A and each P in residual units, sigma2.
fn archive_kind(z: Sizes, kind: u8) -> Kind
    ensures { result ≡ kind_at (archive_kinds z) kind }
{
    let p = z.coefficients;
    let n = z.parameters;
    match kind {
        11 => by_row_and_column(p, p),
        12 => by_row_and_column(p, p),
        13 => by_count(n, p, p),
        14 => by_row_and_column(n, n),
        15 => by_row_and_column(p, p),
        16 => by_row_and_column(p, p),
        17 => by_count(n, p, p),
        18 => alone(),
        _ => unread(),
    }
}

// The second file's: β, contrast, β_H.
fn test_kind(z: Sizes, kind: u8) -> Kind
    ensures { result ≡ kind_at (test_kinds z) kind }
{
    let p = z.coefficients;
    match kind {
        8 => by_row(p),
        9 => by_row_and_column(z.contrasts, p),
        10 => by_row(given(z.hypothesis, p)),
        _ => unread(),
    }
}

// What the sizes leave a kind of the file.
pub fn kind_at(file: Shape, z: Sizes, kind: u8) -> Kind
    ensures { result ≡ kind_at (kinds_of file z) kind }
{
    match file {
        Shape::Series => kenward_roger_kind(z, kind),
        Shape::Test => satterthwaite_kind(z, kind),
        Shape::Archived => archive_kind(z, kind),
        Shape::Second => test_kind(z, kind),
    }
}

// The largest sizes that a file may have, w being the limit of specimens and of random columns.
pub fn limits(w: usize) -> Sizes
    ensures { result ≡ limits w }
{
    Sizes {
        specimens: w,
        coefficients: 6,
        columns: w,
        blocks: 3,
        thetas: 3,
        contrasts: 6,
        parameters: 4,
        weighted: true,
        hypothesis: true,
    }
}
