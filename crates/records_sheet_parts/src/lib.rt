// Parts of a sheet of numbers as arrays and tables.
#![tactic(auto)]

ghost use Rattle.std.specs.Prelude.{◌≡◌, ◌+◌, ◌*◌, ◌≤◌, length};
ghost use Rattle.records_sheet_parts.specs.joints.Parts.{numbers_at, cells_at, stack_at};

// The numbers of the sheet from `at` on, as arrays of three and six.
pub fn three_at(sheet: &[f64], at: usize, n: usize) -> [f64; 3]
    requires { (at + n ≤ length sheet.now) × (n ≤ 3) }
    ensures { result ≡ numbers_at sheet.now 3 at n }
{
    let mut out = [0.0; 3];
    out[..n].copy_from_slice(&sheet[at..at + n]);
    out
}

pub fn six_at(sheet: &[f64], at: usize, n: usize) -> [f64; 6]
    requires { (at + n ≤ length sheet.now) × (n ≤ 6) }
    ensures { result ≡ numbers_at sheet.now 6 at n }
{
    let mut out = [0.0; 6];
    out[..n].copy_from_slice(&sheet[at..at + n]);
    out
}

// The r rows of c numbers from `at` on, one after another.
pub fn cells_at(sheet: &[f64], at: usize, r: usize, c: usize) -> [[f64; 6]; 6]
    requires { (r ≤ 6) × (c ≤ 6) × (at + r * c ≤ length sheet.now) }
    ensures { result ≡ cells_at sheet.now at r c }
{
    let mut out = [[0.0; 6]; 6];
    for i in 0..r {
        for j in 0..c {
            out[i][j] = sheet[at + i * c + j];
        }
    }
    out
}

// n tables of p rows of p numbers, one after another.
pub fn stack_at(sheet: &[f64], at: usize, n: usize, p: usize) -> [[[f64; 6]; 6]; 4]
    requires { (n ≤ 4) × (p ≤ 6) × (at + n * (p * p) ≤ length sheet.now) }
    ensures { result ≡ stack_at sheet.now at n p }
{
    let mut out = [[[0.0; 6]; 6]; 4];
    for i in 0..n {
        let m = cells_at(sheet, at + i * (p * p), p, p);
        out[i] = m;
    }
    out
}
