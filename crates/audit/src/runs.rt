// Calls one after another on one bench.
ghost use Rattle.std.specs.Prelude.{◌≡◌, min, length, drop};
ghost use Rattle.audit.specs.Running.{Ran};
ghost use Rattle.audit.specs.Runs.{OneEntry};

use bench::answers::answer;
use bench::bench::Bench;
use bench::call::{Answer, Call};
use bench::fault::Fault;
use store::calls::Store;

// As many calls as answers fit.
pub fn run<S: Store>(
    bench: &mut Bench<S>,
    calls: &[Call],
    answers: &mut [Result<Answer, Fault>],
) -> usize
    ensures many { result ≡ min (length calls.now) (length answers.old) }
    ensures ran { Ran S.frame S.sets bench.old bench.new calls.now answers.new result }
    ensures behind { drop result answers.new ≡ drop result answers.old }
{
    let made = calls.len().min(answers.len());
    // What is written through a zip of the places is not known afterwards, so each place is named by its index.
    for (i, call) in calls[..made].iter().enumerate() {
        answers[i] = answer(bench, *call);
    }
    made
}

// After any calls the ledger has one entry.
pub fn entry_is_one() -> u8
    ensures { OneEntry }
{
    0
}
