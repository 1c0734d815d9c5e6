// The law of every list of calls, on a bench just opened and on two of them.
ghost use Rattle.std.specs.Prelude.{◌≡◌, min, length, drop};
ghost use Rattle.model.specs.Values.{table_of};
ghost use Rattle.audit.specs.Audits.{Law, AskedHolds, Audited};

use crate::runs::run;
use bench::bench::Bench;
use bench::call::{Answer, Call};
use bench::fault::Fault;
use model::Model;
use store::calls::Store;

// How many calls were made, and what holds answered behind them.
#[derive(Clone, Copy)]
pub struct Outcome {
    pub calls: usize,
    pub holds: Result<bool, Fault>,
}

#[derive(Clone, Copy)]
pub struct Outcomes {
    pub first: Outcome,
    pub second: Outcome,
}

// Opens a bench over each store, makes as many calls on it as answers fit, and asks holds of both.
// Calls and answers are apart: what is left behind a `&mut` in a struct could be named only by its place there.
pub fn audit<S: Store + Drop, T: Store + Drop>(
    model: &Model,
    first: S,
    first_calls: &[Call],
    first_answers: &mut [Result<Answer, Fault>],
    second: T,
    second_calls: &[Call],
    second_answers: &mut [Result<Answer, Fault>],
    state: usize,
    code: usize,
) -> Outcomes
    ensures first_many { result.first.calls ≡ min (length first_calls.now) (length first_answers.old) }
    ensures second_many { result.second.calls ≡ min (length second_calls.now) (length second_answers.old) }
    ensures first_behind { drop result.first.calls first_answers.new ≡ drop result.first.calls first_answers.old }
    ensures second_behind { drop result.second.calls second_answers.new ≡ drop result.second.calls second_answers.old }
    ensures law { Audited S.Store.frame S.Store.sets T.Store.frame T.Store.sets (table_of model.now.table) first first_calls.now first_answers.new result.first.calls second second_calls.now second_answers.new result.second.calls state code result.first.holds result.second.holds }
{
    let first = run_new(model, first, first_calls, first_answers, state, code);
    let second = run_new(model, second, second_calls, second_answers, state, code);
    Outcomes { first, second }
}

// The same on one bench.
pub fn run_new<S: Store + Drop>(
    model: &Model,
    store: S,
    calls: &[Call],
    answers: &mut [Result<Answer, Fault>],
    state: usize,
    code: usize,
) -> Outcome
    ensures many { result.calls ≡ min (length calls.now) (length answers.old) }
    ensures behind { drop result.calls answers.new ≡ drop result.calls answers.old }
    ensures law { Law S.frame S.sets (table_of model.now.table) store calls.now answers.new result.calls }
    ensures holds { AskedHolds (table_of model.now.table) (S.frame store) calls.now result.calls state code result.holds }
{
    let mut bench = Bench::open(model, store);
    let count = run(&mut bench, calls, answers);
    let holds = bench.holds(state, code);
    Outcome {
        calls: count,
        holds,
    }
}
