// Runs the square root and the marked steps on the table that standard input holds, and prints each line with its answer.
// A line has 42 bytes: a word of four letters, two operands as sixteen hexadecimal digits, two marks (1 inside, 0 outside) and a newline.
#![tactic(auto)]

ghost use Rattle.std.specs.Prelude.{◌+◌, ◌<◌, ◌≤◌};

use arithmetic::Marked;

// The operand at a place, with its mark.
fn operand(line: &[u8; 42], at: usize, mark: usize) -> Marked
    requires { (at + 16 ≤ 42) × (mark < 42) }
{
    let x = arithmetic_steps::given(arithmetic::plain::of_bits(table_bits_text::word_at(line, at)));
    arithmetic_steps::also(x, arithmetic_steps::seen_of(line[mark] == b'1'))
}

// The step that the line's first letters name: sqrt, add, sub, mul or div.
fn step(line: &[u8; 42]) -> Marked {
    let a = operand(line, 5, 39);
    let b = operand(line, 22, 40);
    match line {
        [b'a', ..] => arithmetic_steps::add(a, b),
        [b'm', ..] => arithmetic_steps::mul(a, b),
        [b'd', ..] => arithmetic_steps::div(a, b),
        [_, b'u', ..] => arithmetic_steps::sub(a, b),
        _ => arithmetic_steps::square_root(a),
    }
}

// The line again, without its newline, and after it the answer's bits and mark.
fn print_line(line: &[u8; 42]) {
    let r = step(line);
    io::write_all(1, &line[..41]);
    io::write_all(1, b" ");
    table_bits_text::print_word(arithmetic::plain::to_bits(r.value));
    if arithmetic_steps::is_inside(r) {
        io::write_all(1, b" inside\n");
    } else {
        io::write_all(1, b" outside\n");
    }
}

// The lines of a table, whole ones alone.
fn print_table(table: &[u8]) {
    let (lines, _) = table.as_chunks::<42>();
    for line in lines {
        print_line(line);
    }
}

fn main() {
    let mut table = io::large_buffer();
    let n = io::read_full(0, &mut table);
    print_table(&table[..n]);
}
