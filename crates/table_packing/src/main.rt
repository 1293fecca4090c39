// Where each ordered pair of indices is packed, for one to four matrices: 30 lines of n, r, s and the place of Q_rs.
// It writes by `io`, which reaches no C function but `read` and `write`; std's printing would trust those that tell of an error too.
#![tactic(auto)]

ghost use Rattle.std.specs.Prelude.{◌<◌, ◌≤◌};

use adjustment::packing::index_symmat2vec;

fn print_place(n: usize, r: usize, s: usize)
    requires { (n ≤ 4) × (r < n) × (s < n) }
{
    for x in [n, r, s] {
        io::print_decimal(1, x as u64);
        io::write_all(1, b" ");
    }
    io::print_decimal(1, index_symmat2vec(r, s, n) as u64);
    io::write_all(1, b"\n");
}

fn main() {
    for n in 1..5usize {
        for r in 0..n {
            for s in 0..n {
                print_place(n, r, s);
            }
        }
    }
}
