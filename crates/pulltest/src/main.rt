// Program `pulltest`: reads a record file from standard input, to its end, and prints its tests, or the number that refuses it.
#![tactic(auto)]

ghost use Rattle.std.specs.Prelude.{◌≡◌, length};
ghost use Rattle.records_pieces.specs.joints.Arrived.{arrived_as, Arrives};

use records::KEPT_LENGTH;
use records_answer_text::TEXT_ROOM;
use records_pieces::Arrival;

// The next piece of standard input: 4,096 bytes, or what is left of it, and then it was the last.
fn next_piece(a: Arrival, kept: &mut [u8], current: &mut [u8], last: &mut bool) -> Arrival
    requires { Arrives (arrived_as a kept.old current.old) }
    ensures { Arrives (arrived_as result kept.new current.new) }
{
    let mut piece = io::buffer();
    let n = io::read_full(0, &mut piece);
    *last = n < 4096;
    records_pieces::feed(a, &piece[..n], kept, current)
}

// All of standard input. A proved loop has to end, and nothing says that an input does: so the pieces are counted, up to a number that no run reaches.
fn read_all(kept: &mut [u8], current: &mut [u8]) -> Arrival
    requires { length current.old ≡ 16 }
    ensures { Arrives (arrived_as result kept.new current.new) }
{
    let mut a = records_pieces::nothing_yet();
    let mut last = false;
    for _piece in 0..u64::MAX {
        let next = next_piece(a, kept, current, &mut last);
        if last {
            return next;
        }
        a = next;
    }
    a
}

// What is kept of a file has room for every cell within the panel's limits; a longer file is refused whatever it holds (`arrived-number`, records_arrived).
fn main() {
    let mut kept = [0u8; KEPT_LENGTH];
    let mut current = [0u8; 16];
    let mut out = [0u8; TEXT_ROOM];
    let a = read_all(&mut kept, &mut current);
    let m = records_arrived::text_arrived(a, &kept, &mut out);
    io::write_all(1, &out[..m]);
}
