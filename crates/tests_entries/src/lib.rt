// The entries of an answer: one that is not in use, and those of a run that no test refuses.
#![tactic(auto)]

ghost use Rattle.std.specs.Prelude.{◌≡◌, cond, is_some, replicate};
ghost use Rattle.std.specs.Option.{unwrap_or};
ghost use Rattle.tests.specs.Answer.{no_entry};
ghost use Rattle.tests.specs.Entries.{run_refusal, run_entries};

use tests::{Entry, Run};

// An entry that is not in use.
pub fn no_entry() -> Entry
    ensures { result ≡ no_entry }
{
    Entry {
        f: None,
        df: None,
        rank: 0,
        inside: false,
    }
}

// The entries of a run whose tests were made, or none: a zero pivot in any one test refuses the run, which is then told as 10 (`run_refusal`).
pub fn answer_of(run: Run) -> Option<[Entry; 7]>
    ensures value { unwrap_or result (replicate 7 no_entry) ≡ run_entries run.refused run.entries }
    ensures told { cond (is_some result) 0 10 ≡ run_refusal run.refused }
{
    if run.refused {
        return None;
    }
    Some(run.entries)
}
