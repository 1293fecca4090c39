// The answer bytes: an entry is 24 bytes, and an answer seven entries.
#![tactic(auto)]

ghost use Rattle.std.specs.Prelude.{◌≡◌, ◌+◌, ◌≤◌, length, is_some};
ghost use Rattle.std.proofs.lemmas.List.Edits.{sets};
ghost use Rattle.records.specs.format.Layout.{bits_of, flag, entry_bytes, answer_bytes, answer_length, entry_length};

use arithmetic::plain::to_bits;
use records::ENTRY_LENGTH;
use records_little_endian::{put_long, put8};
use tests::Entry;

// The bits of a number, 0 for none.
fn bits_of(n: Option<f64>) -> u64
    ensures { result ≡ bits_of n }
{
    match n {
        Some(x) => to_bits(x),
        None => 0,
    }
}

// Whether a number is given, as a byte: the bits alone do not tell +0 from none.
fn given_of(n: Option<f64>) -> u8
    ensures { result ≡ flag (is_some n) }
{
    u8::from(n.is_some())
}

// An entry's 24 bytes, put from a place on.
pub fn put_entry(a: &mut [u8], at: usize, e: Entry)
    requires { at + entry_length ≤ length a.old }
    ensures { a.new ≡ sets a.old at (entry_bytes e) }
{
    let f = e.f;
    let df = e.df;
    let rank = e.rank;
    let inside = e.inside;
    put_long(a, at, bits_of(f));
    put_long(a, at + 8, bits_of(df));
    put8(
        a,
        at + 16,
        rank,
        given_of(f),
        given_of(df),
        u8::from(inside),
        0,
        0,
        0,
        0,
    );
}

// The seven entries, which fill the answer bytes whole.
pub fn put_answer(a: &mut [u8], es: [Entry; 7])
    requires { length a.old ≡ answer_length }
    ensures { a.new ≡ answer_bytes es }
{
    for i in 0..7 {
        put_entry(a, ENTRY_LENGTH * i, es[i]);
    }
}
