// Falling order, ties by index: of singular values, and of eigenvalues.
#![tactic(auto)]

ghost use Rattle.std.specs.Prelude.{◌≡◌, cond, ◌+◌, ◌<◌, ◌≤◌, eqb};
ghost use Rattle.tests.specs.Order.{comes_before, place_in, index_at};

// Whether number j stands before number i: it is larger, or equal with the lower index.
pub fn comes_before(xs: [f64; 6], j: usize, i: usize) -> bool
    requires { (j < 6) × (i < 6) }
    ensures { result ≡ comes_before xs j i }
{
    let larger = xs[i] < xs[j];
    let equal = xs[i] == xs[j];
    let earlier = j < i;
    larger | (equal & earlier)
}

// How many of the first n stand before number i.
pub fn place_in(n: usize, xs: [f64; 6], i: usize) -> usize
    requires { (n ≤ 6) × (i < 6) }
    ensures { (result ≡ place_in n xs i) × (result < 7) }
{
    let mut place = 0;
    for j in 0..n {
        if comes_before(xs, j, i) {
            place += 1;
        }
    }
    place
}

// i if it stands in place k, and otherwise what was found so far.
fn found_at(n: usize, xs: [f64; 6], k: usize, i: usize, found: usize) -> usize
    requires { (n ≤ 6) × (i < 6) × (found < 6) }
    ensures { (result ≡ cond (eqb (place_in n xs i) k) i found) × (result < 6) }
{
    if place_in(n, xs, i) == k { i } else { found }
}

// The index of the number in place k.
pub fn index_at(n: usize, xs: [f64; 6], k: usize) -> usize
    requires { n ≤ 6 }
    ensures { (result ≡ index_at n xs k) × (result < 6) }
{
    let mut found = 0;
    for i in 0..n {
        found = found_at(n, xs, k, i, found);
    }
    found
}
