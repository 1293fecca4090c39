// What the program prints of a run, as bytes in a lent slice of any length. Each part is put at a cursor, and the cursor after it is returned, so that lines can follow one another; no other byte changes.
// The parts that a program needs for lines of its own are public.
#![tactic(auto)]

ghost use Rattle.std.specs.Prelude.{◌≡◌, [], ◌∷◌, ◌+◌, ◌≤◌, ◌<◌, length};
ghost use Rattle.records.specs.text.Text.{digit, hexadecimal, decimal, number_text, mark_text, fields_text, coefficient_line, test_line, coefficient_lines, refusal_text, lines_text, text_of};
ghost use Rattle.records_answer_text.specs.joints.Cursor.{Put, lines_room};

use arithmetic::plain::to_bits;
use tests::Entry;

// What `pulltest` lends for the text of a series.
pub const TEXT_ROOM: usize = 512;

// A given text.
pub fn put_text(out: &mut [u8], at: usize, text: &[u8]) -> usize
    requires { at + length text.now ≤ length out.old }
    ensures { Put (length text.now) out.old at text.now out.new result }
{
    let end = at + text.len();
    out[at..end].copy_from_slice(text);
    end
}

// A digit of a number in base 10 or 16: 48 is the character 0, and 97 is a.
fn letter(d: u64) -> u8
    requires { d < 16 }
    ensures { result ≡ digit d }
{
    if d < 10 {
        (48 + d) as u8
    } else {
        (97 + (d - 10)) as u8
    }
}

// One digit. What has more is put digit by digit.
pub fn put_digit(out: &mut [u8], at: usize, d: u64) -> usize
    requires { (d < 16) × (at + 1 ≤ length out.old) }
    ensures { Put 1 out.old at (digit d ∷ []) out.new result }
{
    out[at] = letter(d);
    at + 1
}

// The low n hexadecimal digits of w: those of w / 16 come before its last.
pub fn put_hexadecimal(out: &mut [u8], at: usize, n: usize, w: u64) -> usize
    requires { at + n ≤ length out.old }
    ensures { Put n out.old at (hexadecimal n w) out.new result }
{
    if n == 0 {
        return at;
    }
    let next = put_hexadecimal(out, at, n - 1, w / 16);
    put_digit(out, next, w % 16)
}

// The decimal digits of w, n of them at most: those of w / 10, if there are any, come before its last.
pub fn put_decimal(out: &mut [u8], at: usize, n: usize, w: u64) -> usize
    requires { at + n ≤ length out.old }
    ensures { Put n out.old at (decimal n w) out.new result }
{
    if n == 0 {
        return at;
    }
    if w < 10 {
        return put_digit(out, at, w);
    }
    let next = put_decimal(out, at, n - 1, w / 10);
    put_digit(out, next, w % 10)
}

// A number's 16 digits, or none.
pub fn put_number(out: &mut [u8], at: usize, number: Option<f64>) -> usize
    requires { at + 16 ≤ length out.old }
    ensures { Put 16 out.old at (number_text number) out.new result }
{
    match number {
        Some(x) => put_hexadecimal(out, at, 16, to_bits(x)),
        None => put_text(out, at, b"none"),
    }
}

// The mark and the line's end.
fn put_mark(out: &mut [u8], at: usize, inside: bool) -> usize
    requires { at + 9 ≤ length out.old }
    ensures { Put 9 out.old at (mark_text inside) out.new result }
{
    if inside {
        return put_text(out, at, b" inside\n");
    }
    put_text(out, at, b" outside\n")
}

// The fields that a coefficient's line and the contrast's have alike.
pub fn put_fields(out: &mut [u8], at: usize, e: Entry) -> usize
    requires { at + 56 ≤ length out.old }
    ensures { Put 56 out.old at (fields_text e) out.new result }
{
    let f = e.f;
    let df = e.df;
    let rank = e.rank;
    let inside = e.inside;
    let at = put_text(out, at, b"rank ");
    let at = put_decimal(out, at, 3, u64::from(rank));
    let at = put_text(out, at, b" F ");
    let at = put_number(out, at, f);
    let at = put_text(out, at, b" df ");
    let at = put_number(out, at, df);
    put_mark(out, at, inside)
}

// The line of coefficient i. An entry that is not in use has none.
fn put_coefficient(out: &mut [u8], at: usize, i: usize, e: Entry) -> usize
    requires { (i < 6) × (at + 63 ≤ length out.old) }
    ensures { Put 63 out.old at (coefficient_line i e) out.new result }
{
    let rank = e.rank;
    if rank == 0 {
        return at;
    }
    let at = put_text(out, at, b"coef ");
    let at = put_digit(out, at, i as u64);
    let at = put_text(out, at, b" ");
    put_fields(out, at, e)
}

// The line of the contrast, which has none where there is no contrast.
fn put_test(out: &mut [u8], at: usize, e: Entry) -> usize
    requires { at + 61 ≤ length out.old }
    ensures { Put 61 out.old at (test_line e) out.new result }
{
    let rank = e.rank;
    if rank == 0 {
        return at;
    }
    let at = put_text(out, at, b"test ");
    put_fields(out, at, e)
}

// The refusal and its number, of which a u32 has ten digits at most.
pub fn put_refusal(out: &mut [u8], at: usize, number: u32) -> usize
    requires { at + 19 ≤ length out.old }
    ensures { Put 19 out.old at (refusal_text number) out.new result }
{
    let at = put_text(out, at, b"refused ");
    let at = put_decimal(out, at, 10, u64::from(number));
    put_text(out, at, b"\n")
}

// The lines of the six coefficients.
fn put_coefficients(out: &mut [u8], at: usize, es: [Entry; 7]) -> usize
    requires { at + 378 ≤ length out.old }
    ensures { Put 378 out.old at (coefficient_lines 6 es) out.new result }
{
    let mut next = at;
    for i in 0..6 {
        next = put_coefficient(out, next, i, es[i]);
    }
    next
}

// The lines of the entries in use.
fn put_lines(out: &mut [u8], at: usize, es: [Entry; 7]) -> usize
    requires { at + lines_room ≤ length out.old }
    ensures { Put lines_room out.old at (lines_text es) out.new result }
{
    let contrast = es[6];
    let at = put_coefficients(out, at, es);
    put_test(out, at, contrast)
}

// All that is printed of a run: its refusal, or its lines. `lines_room` bytes are what six coefficients' lines and a contrast's take at most; a refusal takes fewer.
pub fn put_run(out: &mut [u8], at: usize, number: u32, es: [Entry; 7]) -> usize
    requires { at + lines_room ≤ length out.old }
    ensures { Put lines_room out.old at (text_of number es) out.new result }
{
    if number != 0 {
        return put_refusal(out, at, number);
    }
    put_lines(out, at, es)
}
