// Whether the blocks of a series keep document 01's limits, and fit Z's columns and the thetas.
#![tactic(auto)]

ghost use Rattle.std.specs.Prelude.{◌≡◌, ℕ, ◌≤◌};
ghost use Rattle.adjustment.specs.Blocks.{block_at};
ghost use Rattle.records.specs.format.Scan.{any};
ghost use Rattle.records_block_limits.specs.joints.Checks.{wrong_block, parameters_in, columns_in, bad_size_in, misfit_in};

use records::Sizes;

fn wrong_block(b: adjustment::Block) -> bool
    ensures { result ≡ wrong_block b }
{
    !((b.effects == 1) | (b.effects == 2)) | (b.groups == 0)
}

fn any_wrong(blocks: [adjustment::Block; 3], n: usize) -> bool
    requires { n ≤ 3 }
    ensures { result ≡ any n (λ b. wrong_block (block_at blocks b)) }
{
    blocks[..n].iter().any(|block| wrong_block(*block))
}

// The parameters of the first n blocks, and their columns of Z.
fn parameters_of(blocks: [adjustment::Block; 3], n: usize) -> usize
    requires { (n ≤ 3) × ((b : ℕ) → ((block_at blocks b).effects ≤ 255) × ((block_at blocks b).groups ≤ 4294967295)) }
    ensures { result ≡ parameters_in blocks n }
{
    let mut parameters = 0;
    for block in &blocks[..n] {
        parameters += block.effects * (block.effects + 1) / 2;
    }
    parameters
}

fn columns_of(blocks: [adjustment::Block; 3], n: usize) -> usize
    requires { (n ≤ 3) × ((b : ℕ) → ((block_at blocks b).effects ≤ 255) × ((block_at blocks b).groups ≤ 4294967295)) }
    ensures { result ≡ columns_in blocks n }
{
    let mut columns = 0;
    for block in &blocks[..n] {
        columns += block.groups * block.effects;
    }
    columns
}

// A block outside its limits, or more than three block parameters: number 3.
pub fn bad_size(blocks: [adjustment::Block; 3], n: usize) -> bool
    requires { (n ≤ 3) × ((b : ℕ) → ((block_at blocks b).effects ≤ 255) × ((block_at blocks b).groups ≤ 4294967295)) }
    ensures { result ≡ bad_size_in blocks n }
{
    if any_wrong(blocks, n) {
        return true;
    }
    3 < parameters_of(blocks, n)
}

// The blocks do not fit Z's columns or the thetas: number 7.
pub fn misfit(z: Sizes, blocks: [adjustment::Block; 3]) -> bool
    requires { (z.blocks ≤ 3) × ((b : ℕ) → ((block_at blocks b).effects ≤ 255) × ((block_at blocks b).groups ≤ 4294967295)) }
    ensures { result ≡ misfit_in z blocks }
{
    let n = z.blocks;
    let columns = columns_of(blocks, n);
    if columns != z.columns {
        return true;
    }
    let parameters = parameters_of(blocks, n);
    z.thetas != parameters
}
