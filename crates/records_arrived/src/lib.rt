// What `pulltest` prints of a file that arrived in pieces.
#![tactic(auto)]

ghost use Rattle.std.specs.Prelude.{◌≡◌, ◌*◌, ◌≤◌, length, replicate};
ghost use Rattle.std.specs.Result.{result_unwrap_or};
ghost use Rattle.arithmetic_cutoffs.specs.Cutoffs.{document_cutoffs};
ghost use Rattle.tests.specs.Answer.{no_entry};
ghost use Rattle.records.specs.format.RefusalNumbers.{result_number};
ghost use Rattle.records.specs.text.Text.{text_of};
ghost use Rattle.records_arrived.specs.joints.ArrivedCall.{unkept_number, arrived_number, arrived_entries};
ghost use Rattle.records_answer_text.specs.joints.Cursor.{Put, text_room};

use arithmetic_cutoffs::document_cutoffs;
use records::refusal::Refusal;
use records_answer_text::{TEXT_ROOM, put_run};
use records_kenward_roger::judge_panel;
use records_pieces::Arrival;
use tests::Entry;
use tests_entries::no_entry;

// What refuses a file whatever is kept: bytes after the last whole record, records that do not rise, more records than are kept.
fn unkept_refusal(a: Arrival) -> Result<(), Refusal>
    ensures { result_number result ≡ unkept_number a }
{
    if a.part != 0 {
        return Err(Refusal::Form);
    }
    if a.fell {
        return Err(Refusal::Order);
    }
    if a.longer {
        return Err(Refusal::Form);
    }
    Ok(())
}

// Its entries, or what refuses it, by what is kept.
pub fn judge_arrived(a: Arrival, kept: &[u8]) -> Result<[Entry; 7], Refusal>
    requires { 16 * a.records ≤ length kept.now }
    ensures value { result_number result ≡ arrived_number document_cutoffs a kept.now }
    ensures answered { result_unwrap_or result (replicate 7 no_entry) ≡ arrived_entries document_cutoffs a kept.now }
{
    unkept_refusal(a)?;
    let end = 16 * a.records;
    let judged = judge_panel(document_cutoffs(), &kept[..end])?;
    Ok(judged.entries)
}

// Its text from the front of `out`, whose other bytes stay, and the text's length.
pub fn text_arrived(a: Arrival, kept: &[u8], out: &mut [u8; TEXT_ROOM]) -> usize
    requires { 16 * a.records ≤ length kept.now }
    ensures { Put text_room out.old 0 (text_of (arrived_number document_cutoffs a kept.now) (arrived_entries document_cutoffs a kept.now)) out.new result }
{
    match judge_arrived(a, kept) {
        Ok(es) => put_run(out, 0, 0, es),
        Err(refusal) => put_run(out, 0, u32::from(refusal), [no_entry(); 7]),
    }
}
