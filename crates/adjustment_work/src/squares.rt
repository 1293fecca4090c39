// Where the matrices stand in the lent slices, and what clears them.
ghost use Rattle.std.specs.Prelude.{◌≡◌, ◌+◌, ◌-◌, ◌*◌, ◌<◌, ◌≤◌, length};
ghost use Rattle.arithmetic.specs.Numbers.{plus_zero};
ghost use Rattle.algebra_large.specs.joints.Slab.{put_row};
ghost use Rattle.adjustment_work.specs.joints.Work.{square, part, zeros};

// Square k of a work slice of len numbers.
pub fn square_at(s: usize, k: usize, len: usize) -> usize
    requires { (6 * (s * s) ≤ len) × (k < 6) }
    ensures { (result ≡ square s k) × (result ≤ len) }
{
    k * (s * s)
}

// Part k of a narrow slice of len numbers.
pub fn part_at(s: usize, k: usize, len: usize) -> usize
    requires { (6 * (6 * s) ≤ len) × (k < 6) }
    ensures { (result ≡ part s k) × (result ≤ len) }
{
    k * (6 * s)
}

// Zeros, and nothing else.
pub fn clear_all(work: &mut [f64])
    ensures { work.new ≡ zeros (length work.old) }
{
    algebra_large::rows::clear_row(work, 0, work.len());
}

// Zeros from square 2 on.
pub fn clear_rest(work: &mut [f64], s: usize)
    requires { 6 * (s * s) ≤ length work.old }
    ensures { work.new ≡ put_row (square s 2) (length work.old - square s 2) (λ j. plus_zero) work.old }
{
    let a = square_at(s, 2, work.len());
    algebra_large::rows::clear_row(work, a, work.len() - a);
}
