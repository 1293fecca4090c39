// A file that arrives in pieces of any lengths: its first records are kept, as many as the lent bytes have room for, and all are compared with their neighbours, so that a falling pair is seen anywhere in a file of any length.
#![tactic(auto)]

ghost use Rattle.std.specs.Prelude.{◌≡◌, ℕ, ◌+◌, ◌*◌, ◌<◌, ◌≤◌, ◌||◌, ltb, length};
ghost use Rattle.records.specs.format.Bytes.{byte};
ghost use Rattle.records_pieces.specs.joints.Arrived.{arrived_as, nothing_yet, with_record, take_record, take_byte, fed, Open};

use records_order::key_at;

// How far a file has come: the records that are kept, the bytes of the current record, one more than the last record's key, whether a record fell, and whether there are more records than are kept.
#[derive(Clone, Copy)]
pub struct Arrival {
    pub records: usize,
    pub part: usize,
    pub least: u64,
    pub fell: bool,
    pub longer: bool,
}

// Nothing has come.
pub fn nothing_yet() -> Arrival
    ensures { result ≡ nothing_yet }
{
    Arrival {
        records: 0,
        part: 0,
        least: 0,
        fell: false,
        longer: false,
    }
}

// One more record after the first n.
fn keep_record(n: usize, current: &[u8], kept: &mut [u8])
    requires { (16 * n + 16 ≤ length kept.old) × (length current.now ≡ 16) }
    ensures { kept.new ≡ with_record n current.now kept.old }
{
    let at = 16 * n;
    for o in 0..16usize {
        kept[at + o] = current[o];
    }
}

// A record fell, or this one does, with its key: whether or not any is kept.
fn fell_with(a: Arrival, key: u64) -> bool
    ensures { result ≡ a.fell || ltb key a.least }
{
    a.fell | (key < a.least)
}

// The current record is whole: it is compared with the last one, and kept where there is room.
fn take_record(a: Arrival, kept: &mut [u8], current: &[u8]) -> Arrival
    requires { (16 * a.records ≤ length kept.old) × (length current.now ≡ 16) }
    ensures { arrived_as result kept.new current.now ≡ take_record (arrived_as a kept.old current.now) }
{
    let key = key_at(current, 0);
    let fell = fell_with(a, key);
    let n = a.records;
    if kept.len() - 16 * n < 16 {
        return Arrival {
            records: n,
            part: 0,
            least: key + 1,
            fell: fell,
            longer: true,
        };
    }
    keep_record(n, current, kept);
    Arrival {
        records: n + 1,
        part: 0,
        least: key + 1,
        fell: fell,
        longer: a.longer,
    }
}

// One more byte.
pub fn take_byte(a: Arrival, b: u8, kept: &mut [u8], current: &mut [u8]) -> Arrival
    requires { Open (arrived_as a kept.old current.old) }
    ensures { arrived_as result kept.new current.new ≡ take_byte b (arrived_as a kept.old current.old) }
{
    let part = a.part;
    current[part] = b;
    let more = Arrival {
        records: a.records,
        part: part + 1,
        least: a.least,
        fell: a.fell,
        longer: a.longer,
    };
    if part == 15 {
        return take_record(more, kept, &current[..]);
    }
    more
}

// One more piece; that its bytes are below 256 is said for the caller, who compares records by them.
pub fn feed(a: Arrival, piece: &[u8], kept: &mut [u8], current: &mut [u8]) -> Arrival
    requires { Open (arrived_as a kept.old current.old) }
    ensures current_after { arrived_as result kept.new current.new ≡ fed piece.now (arrived_as a kept.old current.old) }
    ensures by_index { (i : ℕ) → byte piece.now i < 256 }
{
    let mut so_far = a;
    for i in 0..piece.len() {
        let next = take_byte(so_far, piece[i], kept, current);
        so_far = next;
    }
    so_far
}
