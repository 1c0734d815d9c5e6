// A call of a store with what it answers, as one value each, so that a case is a row of a table.
use std::test::Fail;
use store::calls::Store;
use store::fault::Fault;
use store::shape::Shape;

#[derive(Clone, Copy, PartialEq, Eq, Debug)]
pub enum Call {
    Clear(usize),
    Fill(usize),
    Copy(usize, usize),
    Join(usize, usize),
    Meet(usize, usize),
    Flip(usize),
    Pick(usize, usize),
    Same(usize, usize),
    Has(usize, usize),
    Next(usize, usize),
}

// What an accepted call answers.
#[derive(Clone, Copy, PartialEq, Eq, Debug)]
pub enum Answer {
    Done,
    Says(bool),
    Member(Option<usize>),
}

pub fn ask<S: Store>(store: &mut S, call: Call) -> Result<Answer, Fault> {
    match call {
        Call::Clear(i) => store.clear(i).map(|()| Answer::Done),
        Call::Fill(i) => store.fill(i).map(|()| Answer::Done),
        Call::Copy(i, j) => store.copy(i, j).map(|()| Answer::Done),
        Call::Join(i, j) => store.join(i, j).map(|()| Answer::Done),
        Call::Meet(i, j) => store.meet(i, j).map(|()| Answer::Done),
        Call::Flip(i) => store.flip(i).map(|()| Answer::Done),
        Call::Pick(i, b) => store.pick(i, b).map(|()| Answer::Done),
        Call::Same(i, j) => store.same(i, j).map(Answer::Says),
        Call::Has(i, c) => store.has(i, c).map(Answer::Says),
        Call::Next(i, c) => store.next(i, c).map(Answer::Member),
    }
}

// Every call of the table in order, each with its answer.
pub fn ask_each<S: Store>(
    store: &mut S,
    table: &[(Call, Result<Answer, Fault>)],
) -> Result<(), Fail> {
    for row in table {
        let (call, owed) = *row;
        let given = ask(store, call);
        if given != owed {
            return Err(Fail::new(format_args!("{call:?}: {given:?}, not {owed:?}")));
        }
    }
    Ok(())
}

// What a store with this shape and at least one set refuses, and the last numbers that it takes.
pub fn ask_at_the_edges<S: Store>(store: &mut S, shape: Shape) -> Result<(), Fail> {
    let (count, bits, codes) = (store.set_count(), shape.bits(), shape.codes());
    for i in &[count, usize::MAX] {
        ask_each(
            store,
            &[
                (Call::Clear(*i), Err(Fault::NoSuchSet)),
                (Call::Fill(*i), Err(Fault::NoSuchSet)),
                (Call::Copy(0, *i), Err(Fault::NoSuchSet)),
                (Call::Join(*i, 0), Err(Fault::NoSuchSet)),
                (Call::Meet(0, *i), Err(Fault::NoSuchSet)),
                (Call::Flip(*i), Err(Fault::NoSuchSet)),
                (Call::Pick(*i, bits), Err(Fault::NoSuchSet)),
                (Call::Same(*i, 0), Err(Fault::NoSuchSet)),
                (Call::Has(*i, codes), Err(Fault::NoSuchSet)),
                (Call::Next(*i, codes + 1), Err(Fault::NoSuchSet)),
            ],
        )?;
    }
    ask_each(
        store,
        &[
            (Call::Pick(0, bits), Err(Fault::NoSuchBit)),
            (Call::Pick(0, usize::MAX), Err(Fault::NoSuchBit)),
            (Call::Has(0, codes), Err(Fault::CodeTooHigh)),
            (Call::Has(0, usize::MAX), Err(Fault::CodeTooHigh)),
            (Call::Next(0, codes + 1), Err(Fault::CodeTooHigh)),
            (Call::Next(0, usize::MAX), Err(Fault::CodeTooHigh)),
            (Call::Next(0, codes), Ok(Answer::Member(None))),
        ],
    )
}
