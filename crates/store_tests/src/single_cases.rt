// The single store: its opening, refusals at their edges, sets that are one set twice, and the bytes.
use crate::tables::{Answer, Call, ask_at_the_edges, ask_each};
use std::test::Fail;
use store::calls::Store;
use store::fault::Fault;
use store::shape::Shape;
use store::single::Single;

#[test]
fn opened_with_no_valuation(rt: HostRuntime) -> Result<(), Fail> {
    for code in &[0usize, 1, 4, 16, usize::MAX] {
        let mut cells = [7u8; 2];
        match Single::open(Shape::new(2, 2)?, *code, &mut cells) {
            Ok(_) => assert!(rt; false),
            Err(fault) => assert_eq!(rt; fault, Fault::NoValuation),
        }
        assert_eq!(rt; cells, [7, 7]);
    }
    Ok(())
}

// A store of two sets, for shapes with 0, 1, 3, 4 and 12 bits; the valuation has every action.
#[test]
fn refusals_at_their_edges(rt: HostRuntime) -> Result<(), Fail> {
    for row in &[(5, 0), (1, 1), (3, 1), (2, 2), (3, 4)] {
        let (actions, variables) = *row;
        let shape = Shape::new(actions, variables)?;
        let codes = shape.codes();
        let mut cells = [1u8, 0];
        let mut store = Single::open(shape, codes - 1, &mut cells)?;
        assert_eq!(rt;
            (store.actions(), store.variables(), store.set_count()),
            (actions, variables, 2)
        );
        ask_at_the_edges(&mut store, shape)?;
        ask_each(
            &mut store,
            &[
                (Call::Has(0, codes - 1), Ok(Answer::Says(true))),
                (
                    Call::Next(0, codes - 1),
                    Ok(Answer::Member(Some(codes - 1))),
                ),
            ],
        )?;
        assert_eq!(rt; cells, [1, 0]);
    }
    Ok(())
}

#[test]
fn no_sets_over_no_bytes(rt: HostRuntime) -> Result<(), Fail> {
    let mut cells = [0u8; 0];
    let mut store = Single::open(Shape::new(2, 1)?, 3, &mut cells)?;
    assert_eq!(rt; store.set_count(), 0);
    ask_each(
        &mut store,
        &[
            (Call::Fill(0), Err(Fault::NoSuchSet)),
            (Call::Pick(0, 0), Err(Fault::NoSuchSet)),
            (Call::Same(0, 0), Err(Fault::NoSuchSet)),
            (Call::Has(0, 3), Err(Fault::NoSuchSet)),
            (Call::Next(0, 0), Err(Fault::NoSuchSet)),
        ],
    )?;
    Ok(())
}

// Bytes of any value are read, and 0 or 1 is written.
#[test]
fn one_set_twice(rt: HostRuntime) -> Result<(), Fail> {
    for row in &[
        (Call::Copy(1, 1), Ok(Answer::Done), [0, 1, 255]),
        (Call::Join(1, 1), Ok(Answer::Done), [0, 1, 255]),
        (Call::Meet(2, 2), Ok(Answer::Done), [0, 7, 1]),
        (Call::Meet(0, 0), Ok(Answer::Done), [0, 7, 255]),
        (Call::Same(1, 1), Ok(Answer::Says(true)), [0, 7, 255]),
    ] {
        let (call, answer, left) = *row;
        let mut cells = [0u8, 7, 255];
        let mut store = Single::open(Shape::new(2, 2)?, 6, &mut cells)?;
        ask_each(&mut store, &[(call, answer)])?;
        assert_eq!(rt; cells, left);
    }
    Ok(())
}

#[test]
fn two_sets(rt: HostRuntime) -> Result<(), Fail> {
    for row in &[
        (Call::Clear(2), Ok(Answer::Done), [0, 7, 0]),
        (Call::Fill(0), Ok(Answer::Done), [1, 7, 255]),
        (Call::Copy(0, 1), Ok(Answer::Done), [1, 7, 255]),
        (Call::Join(0, 2), Ok(Answer::Done), [1, 7, 255]),
        (Call::Meet(1, 0), Ok(Answer::Done), [0, 0, 255]),
        (Call::Flip(2), Ok(Answer::Done), [0, 7, 0]),
        (Call::Pick(1, 2), Ok(Answer::Done), [0, 1, 255]),
        (Call::Pick(1, 3), Ok(Answer::Done), [0, 0, 255]),
        (Call::Same(1, 2), Ok(Answer::Says(true)), [0, 7, 255]),
        (Call::Same(0, 1), Ok(Answer::Says(false)), [0, 7, 255]),
        (Call::Has(1, 5), Ok(Answer::Says(false)), [0, 7, 255]),
        (Call::Next(2, 0), Ok(Answer::Member(Some(6))), [0, 7, 255]),
        (Call::Next(2, 7), Ok(Answer::Member(None)), [0, 7, 255]),
        (Call::Next(0, 0), Ok(Answer::Member(None)), [0, 7, 255]),
    ] {
        let (call, answer, left) = *row;
        let mut cells = [0u8, 7, 255];
        let mut store = Single::open(Shape::new(2, 2)?, 6, &mut cells)?;
        ask_each(&mut store, &[(call, answer)])?;
        assert_eq!(rt; cells, left);
    }
    Ok(())
}
