// Runs the adjustment and the tests on the series that standard input holds, a file to a line in hexadecimal digits. For each it prints what `pulltest` prints, and of an accepted one Φ_A, each P and W in residual units and the number of rotations.
#![tactic(auto)]

mod print;

ghost use Rattle.std.specs.Prelude.{◌≡◌, ◌≤◌};
ghost use Rattle.records.specs.readers.Series.{sizes, kinds};
ghost use Rattle.records_sheet.specs.joints.Sheet.{first_slots};
ghost use Rattle.records_refusals.specs.joints.Room.{SeriesRead};

use arithmetic_cutoffs::document_cutoffs;
use records::Shape;
use records_answer_text::TEXT_ROOM;
use records_kenward_roger::{PANEL_CELLS, PANEL_NARROW, PANEL_WORK};

// The adjustment of a file that the reader takes and whose tests were printed, from its sheet: such a file has one. An accepted series has one place for each theta, and one G more.
fn print_adjustment(file: &[u8], sheet: &mut [f64])
    requires { SeriesRead 24 file.now (sizes file.now) (first_slots (kinds file.now)) sheet.old }
{
    let z = records_sizes::series_sizes(file);
    let firsts = records_sheet::first_slots(Shape::Series, z);
    let kept = records_torn::shorten(z, &firsts, sheet);
    // No series has more.
    let p = z.coefficients.min(6);
    let n = z.thetas.min(3) + 1;
    let mut work = [0.0; PANEL_WORK];
    let mut narrow = [0.0; PANEL_NARROW];
    let mut ps = [algebra_products::zeros(); 4];
    let Ok(adjusted) = records_kenward_roger::kenward_roger_modcomp_data(
        24,
        document_cutoffs(),
        file,
        z,
        kept,
        &firsts,
        &sheet[..],
        &mut work,
        &mut narrow,
        &mut ps,
    ) else {
        return;
    };
    print::matrix(b"PhiA", &adjusted.phi_a[..p], p);
    print::numbered(&ps[..n], p);
    print::matrix(b"W", &adjusted.w[..n], n);
    print::rotations(adjusted.rotations);
}

// What `pulltest` prints, and whether that is a refusal: no other line begins with an r.
fn print_tests(file: &[u8]) -> bool {
    let mut out = [0u8; TEXT_ROOM];
    let n = records_kenward_roger::text(file, &mut out);
    io::write_all(1, &out[..n]);
    out[0] == b'r'
}

fn print_case(file: &[u8]) {
    if print_tests(file) {
        return;
    }
    let mut flags = [false; PANEL_CELLS];
    let mut sheet = [0.0; PANEL_CELLS];
    if let Ok(()) = records_refusals::refusal(24, file, &mut flags, &mut sheet) {
        print_adjustment(file, &mut sheet);
    }
}

// The case of a line. Digits past the room of a file are left out.
fn run_line(digits: &[u8]) {
    let mut file = [0u8; 8192];
    let n = table_bits_text::spell(digits, &mut file);
    print_case(&file[..n]);
}

// The lines of a table. What no newline ends is none.
fn run_table(table: &[u8]) {
    for line in table.split_inclusive(|b| *b == b'\n') {
        if let [digits @ .., b'\n'] = line {
            run_line(digits);
        }
    }
}

fn main() {
    let mut table = io::large_buffer();
    let n = io::read_full(0, &mut table);
    run_table(&table[..n]);
}
