// crosscheck: one formula judged over two makes of store, and the audit of both.
#![tactic(auto)]

use audit::audits::{Outcome, audit};
use bench::call::{Answer, Call};
use bench::fault::Fault;
use formula::{Formula, read_formula};
use full::full::Full;
use model::{Model, read_model};
use std::io;
use store::shape::Shape;
use store::single::Single;

const DISPLAY: &[u8] =
    b"3 idle menu lock 2 key bus 1 safe 1 lock safe 3 idle key menu menu key idle menu bus lock";

const SHEET: &[u8] = b"1 Y ef Y safe";

// The one valuation of the single store, Y = { key bus }, of which both benches are asked at idle in the end.
const BOTH: usize = 3;

fn print_answer(rt: &HostRuntime, answer: Result<Answer, Fault>) -> io::Result<()> {
    match answer {
        Ok(said) => println!(rt; "{said}"),
        Err(fault) => println!(rt; "{fault}"),
    }
}

fn print_outcome(
    rt: &HostRuntime,
    store: &str,
    answers: &[Result<Answer, Fault>],
    outcome: Outcome,
) -> io::Result<()> {
    let calls = outcome.calls;
    println!(rt; "{store}: {calls} calls")?;
    for answer in answers {
        print_answer(rt, *answer)?;
    }
    print_answer(rt, outcome.holds.map(Answer::Holds))
}

fn check_both(rt: &HostRuntime, model: &Model, formula: &Formula, shape: Shape) -> io::Result<()> {
    let mut full_bytes = [0u8; 25];
    let mut single_bytes = [0u8; 25];
    let calls = [
        Call::Judge(formula),
        Call::Next(0, 0),
        Call::Next(0, 4),
        Call::Count(1),
        Call::Smallest(1),
        Call::Least(1, 0),
        Call::Least(1, 3),
        Call::Holds(1, 1),
    ];
    let mut full_answers = [Ok(Answer::Count(0)); 8];
    let mut single_answers = [Ok(Answer::Count(0)); 8];
    let full = Full::open(shape, &mut full_bytes);
    let Ok(single) = Single::open(shape, BOTH, &mut single_bytes) else {
        return println!(rt; "no valuation");
    };
    let both = audit(
        model,
        full,
        &calls,
        &mut full_answers,
        single,
        &calls,
        &mut single_answers,
        0,
        BOTH,
    );
    print_outcome(rt, "full", &full_answers, both.first)?;
    print_outcome(rt, "single", &single_answers, both.second)
}

fn main(rt: HostRuntime) -> io::Result<()> {
    let mut model = Model::BLANK;
    let mut formula = Formula::BLANK;
    if read_model(DISPLAY, &mut model).is_err() {
        return println!(rt; "no model");
    }
    if read_formula(SHEET, &model.vocabulary, &mut formula).is_err() {
        return println!(rt; "no formula");
    }
    match Shape::new(2, 1) {
        Ok(shape) => check_both(&rt, &model, &formula, shape),
        Err(_) => println!(rt; "no shape"),
    }
}
