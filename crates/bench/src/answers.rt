// One call, handed over as a value.
ghost use Rattle.bench.specs.Matching.{ByLedger, Left};

use crate::bench::Bench;
use crate::call::{Answer, Call};
use crate::fault::Fault;
use store::calls::Store;

pub fn answer<S: Store>(bench: &mut Bench<S>, call: Call) -> Result<Answer, Fault>
    ensures says { ByLedger S.frame S.sets bench.old call.entry result }
    ensures left { Left S.frame S.sets bench.old bench.new call.entry }
{
    match call {
        Call::Judge(formula) => bench.judge(formula).map(Answer::Rounds),
        Call::Holds(state, code) => bench.holds(state, code).map(Answer::Holds),
        Call::Next(state, from) => bench.next(state, from).map(Answer::Next),
        Call::Count(state) => bench.count(state).map(Answer::Count),
        Call::Smallest(state) => bench.smallest(state).map(Answer::Smallest),
        Call::Least(state, from) => bench.least(state, from).map(Answer::Least),
    }
}
