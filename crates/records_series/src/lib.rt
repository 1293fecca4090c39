// The blocks of a Kenward–Roger series as its record file gives them, and whether each has its parameter count (kenward_roger).
#![tactic(auto)]

ghost use Rattle.std.specs.Prelude.{◌≡◌, ℕ, ◌≤◌, ◌<◌};
ghost use Rattle.algebra.specs.Table.{row};
ghost use Rattle.adjustment.specs.Blocks.{no_block, block_at};
ghost use Rattle.records.specs.format.Scan.{any};
ghost use Rattle.records.specs.format.File.{count, is_cell};
ghost use Rattle.records.specs.readers.Series.{kinds, block_of, miscounted};

use records::RecordKind;

// Record i is of block b.
fn is_block(s: &[u8], b: usize, i: usize) -> bool
    requires { i < count s.now }
    ensures { result ≡ is_cell (kinds s.now) s.now 3 0 b 0 i }
{
    if records_file::kind_of(s, i) != RecordKind::Block as u8 {
        return false;
    }
    records_file::row_at(s, i) == b
}

// Block b, by the last record that is of it.
pub fn block_of(s: &[u8], b: usize) -> adjustment::Block
    ensures { (result ≡ block_of s.now b) × (result.effects ≤ 255) × (result.groups ≤ 4294967295) }
{
    let mut block = adjustment::Block {
        effects: 0,
        groups: 0,
    };
    for i in 0..s.len() / 16 {
        if is_block(s, b, i) {
            block = adjustment::Block {
                effects: records_file::column_at(s, i),
                groups: records_file::count_at(s, i),
            };
        }
    }
    block
}

// The first n blocks.
pub fn blocks_of(s: &[u8], n: usize) -> [adjustment::Block; 3]
    requires { n ≤ 3 }
    ensures { (result ≡ row no_block 3 n (block_of s.now)) × ((b : ℕ) → ((block_at result b).effects ≤ 255) × ((block_at result b).groups ≤ 4294967295)) }
{
    let mut blocks = [adjustment::Block {
        effects: 0,
        groups: 0,
    }; 3];
    for b in 0..n {
        blocks[b] = block_of(s, b);
    }
    blocks
}

// Record i is a block whose written number is not k(k+1)/2. Both are whole numbers: from k = 23 on no byte holds it.
fn miscounted(s: &[u8], i: usize) -> bool
    requires { i < count s.now }
    ensures { result ≡ miscounted s.now i }
{
    if records_file::kind_of(s, i) != RecordKind::Block as u8 {
        return false;
    }
    let k = records_file::column_at(s, i);
    records_file::first_value_at(s, i) != k * (k + 1) / 2
}

// Some block is miscounted: number 13.
pub fn any_miscounted(s: &[u8]) -> bool
    ensures { result ≡ any (count s.now) (miscounted s.now) }
{
    (0..s.len() / 16).any(|i| miscounted(s, i))
}
