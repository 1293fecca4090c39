// A season's file that arrives in pieces of any lengths: each series is judged when the record comes that closes it, and its lines are put at a cursor, then the worst of twenty. What is kept does not grow with the
// season or with a series: of the open series what records_pieces keeps of a file, and twenty F's, each where it is given.
#![tactic(auto)]

ghost use Rattle.std.specs.Prelude.{◌≡◌, not, List, Option, [], ◌∷◌, ℕ, ◌+◌, ◌*◌, ◌/◌, ◌≤◌, eqb, length, Float};
ghost use Rattle.arithmetic_cutoffs.specs.Cutoffs.{document_cutoffs};
ghost use Rattle.records.specs.format.Bytes.{byte};
ghost use Rattle.records.specs.format.Scan.{any};
ghost use Rattle.records.specs.text.Season.{closes, worse, worst, left_over, left_text};
ghost use Rattle.records_answer_text.specs.joints.Cursor.{Put};
ghost use Rattle.records_season.specs.joints.SeasonCame.{season_of, season_as, with_latest, worst_text, arrived_f, arrived_text, SeasonCame, SeasonArrives, Fed, closed_room};

use records::KEPT_LENGTH;
use records_answer_text::{put_number, put_refusal, put_run, put_text};
use records_arrived::judge_arrived;
use records_pieces::{Arrival, nothing_yet};

// The latest series whose F's are kept; and what a piece of 4,096 bytes can add to the text, which closes 256 series at most.
pub const LATEST_COUNT: usize = 20;

pub const PIECE_ROOM: usize = 118272;

// One of the fifteen bytes after a record's kind is set.
fn other_byte_set(bytes: &[u8]) -> bool
    requires { length bytes.now ≡ 16 }
    ensures { result ≡ any 15 (λ o. not (eqb (byte bytes.now (1 + o)) 0)) }
{
    let mut set = false;
    for o in 0..15usize {
        set = set | (bytes[1 + o] != 0);
    }
    set
}

// The record closes a series.
fn closes(bytes: &[u8]) -> bool
    requires { length bytes.now ≡ 16 }
    ensures { result ≡ closes bytes.now 0 }
{
    let set = other_byte_set(bytes);
    (bytes[0] == 21) & !set
}

// The worst so far, and one more F after it: only a strictly larger one takes its place.
fn worse(w: Option<f64>, f: Option<f64>) -> Option<f64>
    ensures { result ≡ worse w f }
{
    match (w, f) {
        (Some(x), Some(y)) => { if x < y { f } else { w } }
        (_, None) => w,
        (None, _) => f,
    }
}

// The worst of twenty, the oldest first.
fn worst_of(window: &[Option<f64>; LATEST_COUNT]) -> Option<f64>
    ensures { result ≡ worst window.now }
{
    let mut w = None;
    for f in window {
        w = worse(w, *f);
    }
    w
}

// One more F after twenty: the oldest goes.
fn keep_latest(window: &mut [Option<f64>; LATEST_COUNT], f: Option<f64>)
    ensures { window.new ≡ with_latest f window.old }
{
    window.rotate_left(1);
    window[LATEST_COUNT - 1] = f;
}

// The `worst` line.
fn put_worst(out: &mut [u8], at: usize, w: Option<f64>) -> usize
    requires { at + 23 ≤ length out.old }
    ensures { Put 23 out.old at (worst_text w) out.new result }
{
    let at = put_text(out, at, b"worst ");
    let at = put_number(out, at, w);
    put_text(out, at, b"\n")
}

// The open series is closed: its lines are put and, where it is accepted, the worst of it and the nineteen before it. A refused series takes its place among the twenty too.
fn close_series(
    a: Arrival,
    kept: &[u8],
    window: &mut [Option<f64>; LATEST_COUNT],
    out: &mut [u8],
    at: usize,
) -> usize
    requires { (16 * a.records ≤ length kept.now) × (at + closed_room ≤ length out.old) }
    ensures window_after { window.new ≡ with_latest (arrived_f a kept.now) window.old }
    ensures put { Put closed_room out.old at (arrived_text a kept.now window.old) out.new result }
{
    let es = match judge_arrived(a, kept) {
        Ok(es) => es,
        Err(refusal) => {
            keep_latest(window, None);
            return put_refusal(out, at, u32::from(refusal));
        }
    };
    let contrast = es[6];
    let f = contrast.f;
    keep_latest(window, f);
    let next = put_run(out, at, 0, es);
    let w = worst_of(window);
    put_worst(out, next, w)
}

// How far a season has come: of its open series what records_pieces keeps of a file, and the F's of the latest twenty, the oldest first.
#[derive(Drop)]
pub struct Season {
    pub arrival: Arrival,
    pub kept: [u8; KEPT_LENGTH],
    pub current: [u8; 16],
    pub window: [Option<f64>; LATEST_COUNT],
}

impl Season {
    // Nothing has come.
    pub fn new() -> Season
        ensures { SeasonCame [] (season_as result) }
    {
        Season {
            arrival: nothing_yet(),
            kept: [0; KEPT_LENGTH],
            current: [0; 16],
            window: [None; LATEST_COUNT],
        }
    }

    // The sixteenth byte of a record, of the open series that has come as far as `a` says. Where the record closes it that is done, and nothing has come of the next one. Answered are how far the series has come then, and where the text ends.
    fn take_last_byte(&mut self, a: Arrival, b: u8, out: &mut [u8], at: usize) -> (Arrival, usize)
        requires { SeasonArrives (season_of a self.old.kept self.old.current self.old.window) × (a.part ≡ 15) × (at + closed_room ≤ length out.old) }
        ensures { Fed (b ∷ []) closed_room (season_of a self.old.kept self.old.current self.old.window) out.old at (season_of result.0 self.new.kept self.new.current self.new.window) out.new result.1 }
    {
        self.current[15] = b;
        if closes(&self.current) {
            let whole = Arrival { part: 0, ..a };
            let next = close_series(whole, &self.kept, &mut self.window, out, at);
            return (nothing_yet(), next);
        }
        (
            records_pieces::take_byte(a, b, &mut self.kept, &mut self.current),
            at,
        )
    }

    // One more byte, likewise.
    fn take_byte(&mut self, a: Arrival, b: u8, out: &mut [u8], at: usize) -> (Arrival, usize)
        requires { SeasonArrives (season_of a self.old.kept self.old.current self.old.window) × (at + closed_room * ((a.part + 1) / 16) ≤ length out.old) }
        ensures { Fed (b ∷ []) (closed_room * ((a.part + 1) / 16)) (season_of a self.old.kept self.old.current self.old.window) out.old at (season_of result.0 self.new.kept self.new.current self.new.window) out.new result.1 }
    {
        if a.part == 15 {
            return self.take_last_byte(a, b, out, at);
        }
        (
            records_pieces::take_byte(a, b, &mut self.kept, &mut self.current),
            at,
        )
    }

    // One more piece, of any length: what it adds to the text stands from the front of `out`, and its length is answered. A series adds `closed_room` bytes at most, the lines of six coefficients, of the contrast and of the worst, and
    // needs a record's sixteenth byte. How far the series has come goes from byte to byte by value, so that no more is written for a byte than the byte.
    pub fn feed(&mut self, piece: &[u8], out: &mut [u8]) -> usize
        requires { SeasonArrives (season_as self.old) × (closed_room * ((self.old.arrival.part + length piece.now) / 16) ≤ length out.old) }
        ensures fed { Fed piece.now (closed_room * ((self.old.arrival.part + length piece.now) / 16)) (season_as self.old) out.old 0 (season_as self.new) out.new result }
        ensures written_in_bounds { result ≤ length out.old }
    {
        let mut a = self.arrival;
        let mut at = 0;
        for b in piece {
            (a, at) = self.take_byte(a, *b, out, at);
        }
        // Field by field: a copy of the whole would take the bytes between its fields with it, from turn to turn of the loop.
        self.arrival = Arrival {
            records: a.records,
            part: a.part,
            least: a.least,
            fell: a.fell,
            longer: a.longer,
        };
        at
    }
}

// The file has ended: bytes after the last record that closes are refused, whatever they are.
pub fn end(a: Arrival, out: &mut [u8], at: usize) -> usize
    requires { at + 19 ≤ length out.old }
    ensures by_index { (s kept current : List ℕ) (window : List (Option Float)) → SeasonCame s (season_of a kept current window) → Put 19 out.old at (left_text (left_over s)) out.new result }
    ensures upper_bound { result ≤ at + 19 }
{
    if (a.part != 0) | (a.records != 0) {
        return put_refusal(out, at, 2);
    }
    at
}
