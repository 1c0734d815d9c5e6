// Lists of calls on a bench just opened, against the answers that the rules give.
#![tactic(auto)]

#[cfg(test)]
mod tests {
    use audit::audits::run_new;
    use bench::call::{Answer, Call};
    use bench::fault::Fault;
    use formula::{Formula, read_formula};
    use model::{Model, read_model};
    use std::test::Fail;
    use store::shape::Shape;
    use store::single::Single;

    const DISPLAY: &[u8] =
        b"3 idle menu lock 2 key bus 1 safe 1 lock safe 3 idle key menu menu key idle menu bus lock";

    fn display() -> Model {
        let mut model = Model::BLANK;
        let _ = read_model(DISPLAY, &mut model);
        model
    }

    fn formula_of(sheet: &[u8]) -> Formula {
        let mut formula = Formula::BLANK;
        let _ = read_formula(sheet, &display().vocabulary, &mut formula);
        formula
    }

    // Blank places are answered: by 20, and nothing is judged.
    #[test]
    fn blank_places(rt: HostRuntime) -> Result<(), Fail> {
        let mut bytes = [0xA5u8; 40];
        let safe = formula_of(b"1 Y ef Y safe");
        let calls = [Call::Judge(&safe), Call::Count(0), Call::Next(9, 9)];
        let mut answers = [Ok(Answer::Count(7)); 3];
        let single = Single::open(Shape::new(2, 1)?, 3, &mut bytes)?;
        let outcome = run_new(&Model::BLANK, single, &calls, &mut answers, 0, 3);
        assert_eq!(rt; outcome.calls, 3);
        assert_eq!(rt; answers[0], Err(Fault::Differ));
        assert_eq!(rt; answers[1], Err(Fault::NothingJudged));
        assert_eq!(rt; answers[2], Err(Fault::NothingJudged));
        assert_eq!(rt; outcome.holds, Err(Fault::NothingJudged));
        Ok(())
    }

    // (2 + 6) × 3 + 1 = 25 sets are needed; a store of 24 is refused by 21.
    #[test]
    fn too_few_sets(rt: HostRuntime) -> Result<(), Fail> {
        let mut bytes = [0u8; 24];
        let safe = formula_of(b"1 Y ef Y safe");
        let calls = [Call::Judge(&safe), Call::Smallest(0)];
        let mut answers = [Ok(Answer::Count(7)); 2];
        let single = Single::open(Shape::new(2, 1)?, 3, &mut bytes)?;
        let outcome = run_new(&display(), single, &calls, &mut answers, 0, 3);
        assert_eq!(rt; outcome.calls, 2);
        assert_eq!(rt; answers[0], Err(Fault::TooFewSets));
        assert_eq!(rt; answers[1], Err(Fault::NothingJudged));
        Ok(())
    }

    // Refused judges between the calls of a listing leave it as it is; only as many calls are made as answers fit.
    #[test]
    fn a_listing_with_refusals_between(rt: HostRuntime) -> Result<(), Fail> {
        let mut bytes = [0xFFu8; 31];
        let two = formula_of(b"2 Y Z ef Y ag Z not safe");
        let safe = formula_of(b"1 Y ef Y safe");
        let calls = [
            Call::Judge(&safe),
            Call::Next(0, 0),
            Call::Judge(&two),
            Call::Next(0, 4),
            Call::Next(0, 5),
            Call::Holds(1, 2),
            Call::Holds(3, 3),
            Call::Least(2, 0),
            Call::Judge(&safe),
        ];
        let mut answers = [Ok(Answer::Count(7)); 8];
        let single = Single::open(Shape::new(2, 1)?, 3, &mut bytes)?;
        let outcome = run_new(&display(), single, &calls, &mut answers, 1, 3);
        assert_eq!(rt; outcome.calls, 8);
        assert_eq!(rt; answers[0], Ok(Answer::Rounds(3)));
        assert_eq!(rt; answers[1], Ok(Answer::Next(Some(3))));
        assert_eq!(rt; answers[2], Err(Fault::Differ));
        assert_eq!(rt; answers[3], Ok(Answer::Next(None)));
        assert_eq!(rt; answers[4], Err(Fault::PlaceTooHigh));
        assert_eq!(rt; answers[5], Err(Fault::NotInUniverse));
        assert_eq!(rt; answers[6], Err(Fault::NoSuchState));
        assert_eq!(rt; answers[7], Ok(Answer::Least(Some(3))));
        assert_eq!(rt; outcome.holds, Ok(true));
        Ok(())
    }
}
