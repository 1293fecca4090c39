// Whether a file is a rising list of records that its call reads: a length, the order, a kind, an unused field, an index, a cell twice, missing or beyond the sizes. It may be any of the four files (`Shape`).
#![tactic(auto)]

ghost use Rattle.std.specs.Prelude.{◌≡◌, false, ◌≤◌, length, replicate};
ghost use Rattle.algebra.specs.Reasons.{first};
ghost use Rattle.records.specs.format.Kinds.{kinds_of, limits};
ghost use Rattle.records.specs.format.Cells.{slot_count};
ghost use Rattle.records.specs.format.File.{form_reasons};
ghost use Rattle.records.specs.format.RefusalNumbers.{result_number};
ghost use Rattle.records.specs.readers.Reader.{limit_kinds, file_kinds, formed_number};
ghost use Rattle.records_sizes.specs.joints.Gathered.{reader_of};

use records::Shape;
use records::refusal::Refusal;
use records_limits::{any_bad, any_beyond};
use records_sheet::{any_missing, first_slots, mark_cells};

// Refuses records that its call does not read, whatever their order, with the limit of specimens w: 2. The lent flags are all clear at first.
fn form_refusal(file: Shape, w: usize, s: &[u8], flags: &mut [bool]) -> Result<(), Refusal>
    requires { (1 ≤ w) × (w ≤ 256) × (flags.old ≡ replicate (length flags.old) false) × (slot_count (kinds_of file (limits w)) ≤ length flags.old) }
    ensures { result_number result ≡ first (form_reasons (limit_kinds (reader_of file w)) (file_kinds (reader_of file w) s.now) s.now) }
{
    if any_bad(file, records_kinds::limits(w), s) {
        return Err(Refusal::Form);
    }
    let z = records_sizes::sizes_of(file, s);
    if any_beyond(file, z, s) {
        return Err(Refusal::Form);
    }
    let firsts = first_slots(file, z);
    if mark_cells(file, z, &firsts, s, flags) {
        return Err(Refusal::Form);
    }
    if any_missing(file, z, &firsts, &flags[..]) {
        return Err(Refusal::Form);
    }
    Ok(())
}

// Refuses a file by its length, its order and its form: 2, 12 and 2.
pub fn file_refusal(file: Shape, w: usize, s: &[u8], flags: &mut [bool]) -> Result<(), Refusal>
    requires { (1 ≤ w) × (w ≤ 256) × (flags.old ≡ replicate (length flags.old) false) × (slot_count (kinds_of file (limits w)) ≤ length flags.old) }
    ensures { result_number result ≡ formed_number (reader_of file w) s.now }
{
    if s.len() % 16 != 0 {
        return Err(Refusal::Form);
    }
    if records_order::falls(s) {
        return Err(Refusal::Order);
    }
    form_refusal(file, w, s, flags)
}
