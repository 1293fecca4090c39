// The blocks of random effects: where a variance parameter stands, and its factor.
ghost use Rattle.std.specs.Prelude.{◌≡◌, cond, ◌+◌, ◌-◌, ◌*◌, ◌/◌, ◌≤◌, ◌<◌, leb};
ghost use Rattle.adjustment.specs.Blocks.{places, block_at, columns_before, places_before, block_of, triangle_column, triangle_row, place_of, theta_cell, factor_of, direction};
ghost use Rattle.adjustment.specs.Information.{packed};
ghost use Rattle.adjustment_covariance.specs.joints.Bounds.{Sound, Placed};

use adjustment::packing::{index_symmat2vec, ordered_place};
use adjustment::{Block, Place};

// The places of a block's lower triangle.
pub fn places(b: Block) -> usize
    requires { b.effects ≤ 2 }
    ensures { result ≡ places b }
{
    b.effects * (b.effects + 1) / 2
}

// The columns of Z of the blocks before block b.
pub fn columns_before(blocks: [Block; 3], b: usize) -> usize
    requires { Sound blocks b }
    ensures { result ≡ columns_before blocks b }
{
    let mut total = 0;
    for i in 0..b {
        let block = blocks[i];
        total = total + block.groups * block.effects;
    }
    total
}

// The thetas of the blocks before block b.
pub fn places_before(blocks: [Block; 3], b: usize) -> usize
    requires { Sound blocks b }
    ensures { result ≡ places_before blocks b }
{
    let mut total = 0;
    for i in 0..b {
        let block = blocks[i];
        total = total + places(block);
    }
    total
}

// b where its first parameter is not above r.
pub fn later(first: usize, r: usize, b: usize, found: usize) -> usize
    ensures { result ≡ cond (leb first r) b found }
{
    if first <= r {
        return b;
    }
    found
}

// The block of parameter r: the last whose first parameter is not above r.
pub fn block_of(blocks: [Block; 3], count: usize, r: usize) -> usize
    requires { Sound blocks count }
    ensures { result ≡ block_of blocks count r }
{
    let mut found = 0;
    for b in 0..count {
        let first = places_before(blocks, b);
        found = later(first, r, b, found);
    }
    found
}

// The column of place q of a lower triangle of k effects, by columns: the last whose diagonal is not above q.
pub fn triangle_column(k: usize, q: usize) -> usize
    requires { k ≤ 4 }
    ensures { result ≡ triangle_column k q }
{
    let mut found = 0;
    for c in 0..k {
        let diagonal = index_symmat2vec(c, c, k);
        found = later(diagonal, q, c, found);
    }
    found
}

// Its row, c being its column.
pub fn triangle_row(k: usize, q: usize, c: usize) -> usize
    requires { (k ≤ 4) × (q < k * (k + 1) / 2) × (c ≡ triangle_column k q) }
    ensures { result ≡ triangle_row k q }
{
    let diagonal = index_symmat2vec(c, c, k);
    c + (q - diagonal)
}

// Where parameter r stands.
pub fn place_of(blocks: [Block; 3], count: usize, r: usize) -> Place
    requires { Sound blocks count × (r < places_before blocks count) }
    ensures { (result ≡ place_of blocks count r) × Placed result (columns_before blocks count) }
{
    let b = block_of(blocks, count, r);
    let first = places_before(blocks, b);
    let start = columns_before(blocks, b);
    let block = blocks[b];
    let column = triangle_column(block.effects, r - first);
    Place {
        start: start,
        effects: block.effects,
        groups: block.groups,
        first: first,
        row: triangle_row(block.effects, r - first, column),
        column: column,
    }
}

// Cell (i, c) of T: the thetas fill it by columns, and zeros stand above its diagonal.
pub fn theta_cell(theta: [f64; 3], t: Place, i: usize, c: usize) -> f64
    requires { (t.effects ≤ 2) × (t.first + t.effects * (t.effects + 1) / 2 ≤ 3) × (i < t.effects) × (c < t.effects) }
    ensures { result ≡ theta_cell theta t i c }
{
    if c <= i {
        let at = t.first + ordered_place(c, i, t.effects);
        return theta[at];
    }
    0.0
}

// The place's entry of TTᵀ.
pub fn factor_of(theta: [f64; 3], t: Place) -> f64
    requires { (t.effects ≤ 2) × (t.first + t.effects * (t.effects + 1) / 2 ≤ 3) × (t.row < t.effects) × (t.column < t.effects) }
    ensures { result ≡ factor_of theta t }
{
    let mut total = 0.0;
    for c in 0..t.effects {
        total = total + theta_cell(theta, t, t.row, c) * theta_cell(theta, t, t.column, c);
    }
    total
}

// Cell (a, b) of E: 1 at the place and at its mirror.
pub fn direction(t: Place, a: usize, b: usize) -> f64
    ensures { result ≡ direction t a b }
{
    if ((a == t.row) & (b == t.column)) | ((a == t.column) & (b == t.row)) {
        return 1.0;
    }
    0.0
}
