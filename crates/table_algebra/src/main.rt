// Runs each algorithm of the algebra on the fixed cases that standard input holds, and prints the bits of every result.
// A case is 73 words of sixteen hexadecimal digits, each followed by one byte: the algorithm and the sizes, then the 36 cells of A and the 36 of B, row by row.
#![tactic(auto)]

mod cases;
mod large_cases;
mod print;

// The next case of standard input, if a whole one is left.
fn next_case() {
    let mut text = [0u8; 1241];
    let n = io::read_full(0, &mut text);
    if n == 1241 {
        cases::run(&text);
    }
}

// At most 256 cases; the large matrices are drawn by the program itself.
fn main() {
    for _ in 0..256 {
        next_case();
    }
    large_cases::run(1);
    large_cases::run(7);
    large_cases::run(24);
}
