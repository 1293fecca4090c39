// Where Q_rs stands among the packed Qs of n matrices, n at most 4: arithmetic alone, with no comparison and no branch. No contract can say that; the gate looks at this file for it.
ghost use Rattle.std.specs.Prelude.{◌≡◌, cond, ◌+◌, ◌*◌, ◌/◌, ◌<◌, ◌≤◌, leb};
ghost use Rattle.adjustment.specs.Information.{packed};

// The smaller index of a pair: for indices below 4, r + 4 - s holds one whole 4 where s is not above r, and none where it is.
fn smaller_index(r: usize, s: usize) -> usize
    requires { (r < 4) × (s < 4) }
    ensures { result ≡ cond (leb r s) r s }
{
    let second = (r + 4 - s) / 4;
    second * s + (1 - second) * r
}

// The place of the pair (a, b) whose smaller index is a: row after row of the upper half.
pub fn ordered_place(a: usize, b: usize, n: usize) -> usize
    requires { (n ≤ 4) × (a ≤ b) × (b < n) }
    ensures { (result ≡ packed n a b) × (result < 10) × (result < n * (n + 1) / 2) }
{
    a * n - a * (a + 1) / 2 + b
}

// Where Q_rs is packed, in either order of r and s.
pub fn index_symmat2vec(r: usize, s: usize, n: usize) -> usize
    requires { (n ≤ 4) × (r < n) × (s < n) }
    ensures { (result ≡ packed n r s) × (result < 10) × (result < n * (n + 1) / 2) }
{
    let a = smaller_index(r, s);
    ordered_place(a, r + s - a, n)
}
