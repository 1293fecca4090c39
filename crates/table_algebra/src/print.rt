// What the program prints: words of bits, marks, and whole matrices of six rows.
use algebra::Matrix;
use arithmetic::Marked;

// A plain number is printed in its bits, a marked one with its mark behind them.
pub trait Printed: Copy {
    fn print(self);
}

impl Printed for f64 {
    fn print(self) {
        table_bits_text::print_word(arithmetic::plain::to_bits(self));
    }
}

impl Printed for Marked {
    fn print(self) {
        self.value.print();
        io::write_all(
            1,
            if arithmetic_steps::is_inside(self) {
                b"+"
            } else {
                b"-"
            },
        );
    }
}

pub fn flag(b: bool) {
    if b {
        io::write_all(1, b"refused\n");
    } else {
        io::write_all(1, b"taken\n");
    }
}

pub fn count(n: usize) {
    table_bits_text::print_word(n as u64);
    io::write_all(1, b"\n");
}

// The cells of a row.
pub fn cells<T: Printed>(row: &[T]) {
    for x in row {
        x.print();
        io::write_all(1, b" ");
    }
    io::write_all(1, b"\n");
}

pub fn matrix<T: Printed>(m: Matrix<T>) {
    for row in &m {
        cells(row);
    }
}
