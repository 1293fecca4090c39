// The bytes of an archive: the cells of its table one after another, kind after kind, each matrix by the same functions.
#![tactic(auto)]

ghost use Rattle.std.specs.Prelude.{◌≡◌, ◌+◌, ◌*◌, ◌<◌, ◌≤◌, length};
ghost use Rattle.std.proofs.lemmas.List.Edits.{sets};
ghost use Rattle.records.specs.format.Kinds.{width};
ghost use Rattle.records.specs.format.Cells.{slots};
ghost use Rattle.records.specs.format.Written.{record_of};
ghost use Rattle.records.specs.readers.Archive.{sizes_at, archived, archive_bytes, archive_length};
ghost use Rattle.records_archive_bytes.specs.joints.Parts.{archive_from, cell_bytes, line_bytes, sheet_bytes, matrices_bytes};

use records::{Kind, Shape, Sizes};
use records_kinds::{index_of, kind_at, width};
use records_little_endian::{put_long, put8};

// The sizes of an archive of p coefficients and n variance parameters.
pub fn sizes_at(p: usize, n: usize) -> Sizes
    ensures { result ≡ sizes_at p n }
{
    Sizes {
        specimens: 0,
        coefficients: p,
        columns: 0,
        blocks: 0,
        thetas: 0,
        contrasts: 0,
        parameters: n,
        weighted: false,
        hypothesis: false,
    }
}

// One record, put from a place on; the fields are below 256.
pub fn put_record(
    out: &mut [u8],
    at: usize,
    kind: u8,
    row: usize,
    column: usize,
    count: usize,
    bits: u64,
)
    requires { (at + 16 ≤ length out.old) × (row < 256) × (column < 256) × (count < 256) }
    ensures { out.new ≡ sets out.old at (record_of kind row column count bits) }
{
    put8(
        out,
        at,
        kind,
        row as u8,
        column as u8,
        0,
        count as u8,
        0,
        0,
        0,
    );
    put_long(out, at + 8, bits);
}

// The number of a cell: Φ and Φ_A times sigma2, each P over it, W; then Φ, Φ_A and each P as they are, and sigma2.
pub fn archived(
    kind: u8,
    n: usize,
    r: usize,
    c: usize,
    phi: &[[f64; 6]; 6],
    phi_a: &[[f64; 6]; 6],
    ps: &[[[f64; 6]; 6]; 4],
    w: &[[f64; 6]; 6],
    sigma2: f64,
) -> f64
    requires { (n < 4) × (r < 6) × (c < 6) }
    ensures { result ≡ archived (archive_from 0 0 phi.now phi_a.now ps.now w.now sigma2) kind n r c }
{
    match kind {
        11 => phi[r][c] * sigma2,
        12 => phi_a[r][c] * sigma2,
        13 => ps[n][r][c] / sigma2,
        14 => w[r][c],
        15 => phi[r][c],
        16 => phi_a[r][c],
        17 => ps[n][r][c],
        _ => sigma2,
    }
}

// The record of a cell.
fn put_cell(
    out: &mut [u8],
    at: usize,
    z: Kind,
    kind: u8,
    n: usize,
    r: usize,
    c: usize,
    phi: &[[f64; 6]; 6],
    phi_a: &[[f64; 6]; 6],
    ps: &[[[f64; 6]; 6]; 4],
    w: &[[f64; 6]; 6],
    sigma2: f64,
)
    requires { (at + 16 ≤ length out.old) × (n < 4) × (r < 6) × (c < 6) }
    ensures { out.new ≡ sets out.old at (cell_bytes (archive_from 0 0 phi.now phi_a.now ps.now w.now sigma2) z kind n r c) }
{
    let row = z.row;
    let column = z.column;
    let count = z.count;
    let x = archived(kind, n, r, c, phi, phi_a, ps, w, sigma2);
    put_record(
        out,
        at,
        kind,
        index_of(row, r),
        index_of(column, c),
        index_of(count, n),
        arithmetic::plain::to_bits(x),
    );
}

// The records of a row of a matrix.
fn put_line(
    out: &mut [u8],
    at: usize,
    z: Kind,
    kind: u8,
    n: usize,
    r: usize,
    phi: &[[f64; 6]; 6],
    phi_a: &[[f64; 6]; 6],
    ps: &[[[f64; 6]; 6]; 4],
    w: &[[f64; 6]; 6],
    sigma2: f64,
)
    requires { (at + 16 * width z.column ≤ length out.old) × (n < 4) × (r < 6) × (width z.column ≤ 6) }
    ensures { out.new ≡ sets out.old at (line_bytes (archive_from 0 0 phi.now phi_a.now ps.now w.now sigma2) z kind n r) }
{
    let column = z.column;
    let columns = width(column);
    for c in 0..columns {
        put_cell(
            out,
            at + 16 * c,
            z,
            kind,
            n,
            r,
            c,
            phi,
            phi_a,
            ps,
            w,
            sigma2,
        );
    }
}

// The records of matrix n of a kind, row after row.
fn put_sheet(
    out: &mut [u8],
    at: usize,
    z: Kind,
    kind: u8,
    n: usize,
    phi: &[[f64; 6]; 6],
    phi_a: &[[f64; 6]; 6],
    ps: &[[[f64; 6]; 6]; 4],
    w: &[[f64; 6]; 6],
    sigma2: f64,
)
    requires { (at + width z.row * (16 * width z.column) ≤ length out.old) × (n < 4) × (width z.row ≤ 6) × (width z.column ≤ 6) }
    ensures { out.new ≡ sets out.old at (sheet_bytes (archive_from 0 0 phi.now phi_a.now ps.now w.now sigma2) z kind n) }
{
    let row = z.row;
    let column = z.column;
    let rows = width(row);
    let line = 16 * width(column);
    for r in 0..rows {
        put_line(out, at + r * line, z, kind, n, r, phi, phi_a, ps, w, sigma2);
    }
}

// The records of a kind, matrix after matrix; the place after them.
fn put_kind(
    out: &mut [u8],
    at: usize,
    z: Kind,
    kind: u8,
    phi: &[[f64; 6]; 6],
    phi_a: &[[f64; 6]; 6],
    ps: &[[[f64; 6]; 6]; 4],
    w: &[[f64; 6]; 6],
    sigma2: f64,
) -> usize
    requires { (at + 16 * slots z ≤ length out.old) × (width z.count ≤ 4) × (width z.row ≤ 6) × (width z.column ≤ 6) }
    ensures { (result ≡ at + 16 * slots z) × (out.new ≡ sets out.old at (matrices_bytes (archive_from 0 0 phi.now phi_a.now ps.now w.now sigma2) z kind)) }
{
    let count = z.count;
    let row = z.row;
    let column = z.column;
    let counts = width(count);
    let sheet = width(row) * (16 * width(column));
    for n in 0..counts {
        put_sheet(out, at + n * sheet, z, kind, n, phi, phi_a, ps, w, sigma2);
    }
    at + counts * sheet
}

// The archive of p coefficients and n variance parameters, at the front of the lent bytes; its length.
pub fn put_archive(
    out: &mut [u8],
    p: usize,
    n: usize,
    phi: &[[f64; 6]; 6],
    phi_a: &[[f64; 6]; 6],
    ps: &[[[f64; 6]; 6]; 4],
    w: &[[f64; 6]; 6],
    sigma2: f64,
) -> usize
    requires { (p ≤ 6) × (n ≤ 4) × (archive_length ≤ length out.old) }
    ensures value { result ≡ length (archive_bytes (archive_from p n phi.now phi_a.now ps.now w.now sigma2)) }
    ensures out_after { out.new ≡ sets out.old 0 (archive_bytes (archive_from p n phi.now phi_a.now ps.now w.now sigma2)) }
{
    let z = sizes_at(p, n);
    let mut at: usize = 0;
    for k in 0..33u8 {
        at = put_kind(
            out,
            at,
            kind_at(Shape::Archived, z, k),
            k,
            phi,
            phi_a,
            ps,
            w,
            sigma2,
        );
    }
    at
}
