// Shapes and valuations at their limits.
use std::test::Fail;
use store::fault::Fault;
use store::shape::Shape;

#[test]
fn shapes_within_the_limits(rt: HostRuntime) -> Result<(), Fail> {
    for row in &[
        (1, 0, 1),
        (12, 0, 1),
        (1, 1, 2),
        (1, 3, 8),
        (2, 2, 16),
        (1, 4, 16),
        (3, 4, 4096),
        (12, 1, 4096),
    ] {
        let (actions, variables, codes) = *row;
        let shape = Shape::new(actions, variables)?;
        assert_eq!(rt;
            (shape.actions(), shape.variables(), shape.codes()),
            (actions, variables, codes)
        );
    }
    Ok(())
}

#[test]
fn no_shapes_past_the_limits(rt: HostRuntime) {
    for row in &[
        (0, 0),
        (0, 1),
        (13, 0),
        (1, 5),
        (4, 4),
        (7, 2),
        (usize::MAX, 0),
        (1, usize::MAX),
        (usize::MAX, usize::MAX),
    ] {
        let (actions, variables) = *row;
        assert_eq!(rt; Shape::new(actions, variables), Err(Fault::NoShape));
    }
}

#[test]
fn valuations_give_each_variable_an_action(rt: HostRuntime) -> Result<(), Fail> {
    for row in &[
        (2, 2, 0, false),
        (2, 2, 1, false),
        (2, 2, 12, false),
        (2, 2, 5, true),
        (2, 2, 15, true),
        (2, 2, 16, false),
        (2, 2, usize::MAX, false),
        (1, 0, 0, true),
        (1, 0, 1, false),
    ] {
        let (actions, variables, code, answer) = *row;
        assert_eq!(rt; Shape::new(actions, variables)?.is_valuation(code), answer);
    }
    Ok(())
}

#[test]
fn refusals_have_their_numbers(rt: HostRuntime) {
    for row in &[
        (Fault::NoShape, 30),
        (Fault::NoValuation, 31),
        (Fault::NoSuchSet, 32),
        (Fault::NoSuchBit, 33),
        (Fault::CodeTooHigh, 34),
    ] {
        let (fault, number) = *row;
        assert_eq!(rt; fault.number(), number);
    }
}
