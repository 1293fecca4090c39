// What the program prints of an adjustment: matrices row by row, in the bits of their cells.
ghost use Rattle.std.specs.Prelude.{◌≤◌, length};

fn cells(row: &[f64]) {
    for x in row {
        io::write_all(1, b" ");
        table_bits_text::print_word(arithmetic::plain::to_bits(*x));
    }
    io::write_all(1, b"\n");
}

// A line for each row: the matrix's name, the row's number and its cells in the first columns.
pub fn matrix(name: &[u8], rows: &[[f64; 6]], columns: usize)
    requires { columns ≤ 6 }
{
    for (i, row) in rows.iter().enumerate() {
        io::write_all(1, name);
        io::write_all(1, b" row ");
        io::print_decimal(1, i as u64);
        cells(&row[..columns]);
    }
}

// The Ps, each with its number and its first p rows and columns.
pub fn numbered(ps: &[[[f64; 6]; 6]], p: usize)
    requires { (length ps.now ≤ 4) × (p ≤ 6) }
{
    for (r, m) in ps.iter().enumerate() {
        let name = [b'P', b' ', b'0' + r as u8];
        matrix(&name, &m[..p], p);
    }
}

pub fn rotations(n: usize) {
    io::write_all(1, b"rotations ");
    io::print_decimal(1, n as u64);
    io::write_all(1, b"\n");
}
