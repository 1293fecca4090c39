// Large matrices of n rows in six squares of 24 by 24: a drawn matrix, its Gram matrix with a heavier diagonal, the Cholesky factor of that, the
// factor's inverse, and products of these.
ghost use Rattle.std.specs.Prelude.{◌+◌, ◌*◌, ◌≤◌, ◌<◌};

use crate::print::{self, Printed};
use algebra_large_factor::{cholesky, zero_above};
use algebra_large_inverse::back::invert;
use algebra_large_products::{narrow, whole};

// The next number of the sequence s -> 1664525 s + 1013904223 modulo 2^32.
fn next_number(s: u32) -> u32 {
    s.wrapping_mul(1664525).wrapping_add(1013904223)
}

// A whole number from -1000 to 1000, over 64.
fn cell_of(s: u32) -> f64 {
    (arithmetic::plain::of_count((s / 65536 % 2001) as usize) - 1000.0) / 64.0
}

// The squares stand one after another, with a stride of 24 in each.
#[derive(Drop)]
struct Squares {
    cells: [f64; 3456],
    n: usize,
    ghost fits: { n ≤ 24 },
}

impl Squares {
    // The first square is drawn, row after row of n cells.
    fn drawn(n: usize, start: u32) -> Self
        requires { n ≤ 24 }
    {
        let mut cells = [0.0; 3456];
        let mut s = start;
        let (rows, _) = cells[..24 * n].as_chunks_mut::<24>();
        for row in rows {
            for x in &mut row[..n] {
                s = next_number(s);
                *x = cell_of(s);
            }
        }
        Squares { cells, n }
    }

    // The diagonal of the square at 576 gains 1000, so that it is positive definite.
    fn make_heavier(&mut self) {
        for x in self.cells[576..].iter_mut().step_by(25).take(self.n) {
            *x += 1000.0;
        }
    }

    // XᵀX of the matrix at p, at d.
    fn gram(&mut self, d: usize, p: usize)
        requires { (p + 576 ≤ d) × (d ≤ 2880) }
    {
        whole::gram(&mut self.cells, d, 24, p, 24, self.n, self.n);
    }

    // The matrix at 1152 becomes that at 576; the matrix at 1728 becomes three quarters of it.
    fn copy(&mut self) {
        whole::copy(&mut self.cells, 1152, 24, 576, 24, self.n, self.n);
    }

    fn clear(&mut self) {
        whole::clear(&mut self.cells, 1728, 24, self.n, self.n);
    }

    fn gain(&mut self) {
        whole::add_times(&mut self.cells, 1728, 24, 576, 24, self.n, self.n, 0.75);
    }

    // The Cholesky factor in the place of the matrix at 1152; whether it is refused.
    fn factor(&mut self) -> bool {
        cholesky(&mut self.cells, 1152, 24, self.n)
    }

    fn lower(&mut self) {
        zero_above(&mut self.cells, 1152, 24, self.n);
    }

    // The inverse of the matrix at 1152, at 0, by elimination in the two squares from 1728 on.
    fn invert(&mut self) -> bool {
        invert(&mut self.cells, 0, 24, 1728, 48, 1152, 24, self.n)
    }

    // The matrix at 576 times that at 2880, at 1728.
    fn multiply(&mut self) {
        whole::product(
            &mut self.cells,
            1728,
            24,
            576,
            24,
            2880,
            24,
            self.n,
            self.n,
            self.n,
        );
    }

    // The matrix at 2880 times the first three columns of the square at 0, taken as a narrow matrix.
    fn print_narrowed(&self) {
        let mut out = [0.0; 144];
        narrow::times_narrow(
            &mut out,
            0,
            6,
            &self.cells,
            2880,
            24,
            &self.cells,
            0,
            24,
            self.n,
            self.n,
            self.n.min(3),
        );
        print::cells(&out);
    }

    // The n rows of the square at a place.
    fn print_square(&self, at: usize)
        requires { at ≤ 2880 }
    {
        let (rows, _) = self.cells[at..at + 24 * self.n].as_chunks::<24>();
        for row in rows {
            print::cells(&row[..self.n]);
        }
    }

    fn print_sums(&mut self) {
        self.gram(576, 0);
        self.make_heavier();
        self.copy();
        self.clear();
        self.gain();
        self.print_square(1728);
    }

    fn print_solutions(&mut self) {
        print::flag(self.factor());
        self.lower();
        self.print_square(1152);
        print::flag(self.invert());
        self.print_square(0);
    }

    fn print_products(&mut self) {
        self.gram(2880, 0);
        self.print_square(2880);
        self.multiply();
        self.print_square(1728);
        narrow::cross_sum(&self.cells, 576, 24, 2880, 24, self.n).print();
        self.print_narrowed();
    }
}

pub fn run(n: usize)
    requires { n ≤ 24 }
{
    let mut work = Squares::drawn(n, 2026);
    work.print_sums();
    work.print_solutions();
    work.print_products();
}
