// The fixed layer: over the single store, with an empty universe, and over itself.
use crate::tables::{Answer, Call, ask_at_the_edges, ask_each};
use std::test::Fail;
use store::calls::Store;
use store::fixed::Fixed;
use store::shape::Shape;
use store::single::Single;

// The valuation is 6, with the bits 1 and 2. Bits of the mask from 4 on say nothing.
#[test]
fn the_universe_below_the_mask() -> Result<(), Fail> {
    for row in &[
        (0, true),
        (2, true),
        (6, true),
        (16, true),
        (usize::MAX - 9, true),
        (1, false),
        (7, false),
        (usize::MAX, false),
    ] {
        let (mask, kept) = *row;
        let mut cells = [0u8; 2];
        let mut store = Fixed::new(Single::open(Shape::new(2, 2)?, 6, &mut cells)?, mask);
        ask_each(
            &mut store,
            &[
                (Call::Fill(0), Ok(Answer::Done)),
                (Call::Has(0, 6), Ok(Answer::Says(kept))),
                (Call::Flip(1), Ok(Answer::Done)),
                (Call::Same(0, 1), Ok(Answer::Says(true))),
            ],
        )?;
    }
    Ok(())
}

// Without a universe a set may still have a member, and a flip takes it away.
#[test]
fn an_empty_universe(rt: HostRuntime) -> Result<(), Fail> {
    let mut cells = [7u8, 0];
    let mut store = Fixed::new(Single::open(Shape::new(2, 2)?, 6, &mut cells)?, 1);
    assert_eq!(rt;
        (store.actions(), store.variables(), store.set_count()),
        (2, 2, 2)
    );
    ask_each(
        &mut store,
        &[
            (Call::Next(0, 0), Ok(Answer::Member(Some(6)))),
            (Call::Copy(1, 0), Ok(Answer::Done)),
            (Call::Has(1, 6), Ok(Answer::Says(true))),
            (Call::Flip(0), Ok(Answer::Done)),
            (Call::Next(0, 0), Ok(Answer::Member(None))),
            (Call::Join(0, 1), Ok(Answer::Done)),
            (Call::Same(0, 1), Ok(Answer::Says(true))),
            (Call::Meet(0, 0), Ok(Answer::Done)),
            (Call::Pick(0, 3), Ok(Answer::Done)),
            (Call::Has(0, 6), Ok(Answer::Says(false))),
        ],
    )?;
    let below = store.into_below();
    assert_eq!(rt; below.has(1, 6)?, true);
    Ok(())
}

#[test]
fn refusals_pass_through() -> Result<(), Fail> {
    let shape = Shape::new(2, 2)?;
    let mut cells = [1u8];
    let mut store = Fixed::new(Single::open(shape, 6, &mut cells)?, 6);
    ask_at_the_edges(&mut store, shape)?;
    Ok(())
}

#[test]
fn fixed_over_fixed() -> Result<(), Fail> {
    for row in &[(2, 4, true), (2, 1, false), (8, 2, false), (0, 0, true)] {
        let (inner, outer, kept) = *row;
        let mut cells = [0u8];
        let mut store = Fixed::new(
            Fixed::new(Single::open(Shape::new(2, 2)?, 6, &mut cells)?, inner),
            outer,
        );
        ask_each(
            &mut store,
            &[
                (Call::Fill(0), Ok(Answer::Done)),
                (Call::Has(0, 6), Ok(Answer::Says(kept))),
                (Call::Flip(0), Ok(Answer::Done)),
                (Call::Has(0, 6), Ok(Answer::Says(false))),
            ],
        )?;
    }
    Ok(())
}
