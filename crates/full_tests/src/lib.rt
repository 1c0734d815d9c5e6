// What the full store tells a caller of the bytes, and cases of its calls.
#![tactic(auto)]

ghost use Rattle.std.specs.Prelude.{is_ok};
ghost use Rattle.logic.specs.Codes.{valuation};
ghost use Rattle.store.specs.Shapes.{shape_actions, shape_variables};
ghost use Rattle.full.specs.Bytes.{Rewritten};
ghost use Rattle.full.specs.Stores.{shape_bits};

use full::full::Full;
use store::calls::Store;
use store::fault::Fault;
use store::shape::Shape;

// The caller's bytes once the store is let go: the contract of a call reaches them.
pub fn filled(shape: Shape, cells: &mut [u8], i: usize) -> Result<(), Fault>
    ensures { Rewritten (shape_bits shape) cells.old cells.new (is_ok result) i (valuation (shape_actions shape) (shape_variables shape)) }
{
    let mut full = Full::open(shape, cells);
    full.fill(i)
}

#[cfg(test)]
mod tests {
    use super::*;
    use std::test::Fail;
    use store::fixed::Fixed;

    fn refused<T: Drop>(answer: Result<T, Fault>) -> Result<(), Fail> {
        match answer {
            Err(Fault::NoSuchSet) => Ok(()),
            _ => Err(Fail::new("the answer is not NoSuchSet")),
        }
    }

    fn refuses_set<S: Store>(s: &mut S, i: usize) -> Result<(), Fail> {
        refused(s.clear(i))?;
        refused(s.fill(i))?;
        refused(s.copy(i, 0))?;
        refused(s.copy(0, i))?;
        refused(s.join(0, i))?;
        refused(s.meet(0, i))?;
        refused(s.flip(i))?;
        refused(s.pick(i, 12))?;
        refused(s.same(0, i))?;
        refused(s.has(i, 4096))?;
        refused(s.next(i, 4097))
    }

    #[test]
    fn no_byte_is_no_set(rt: HostRuntime) -> Result<(), Fail> {
        let mut bytes = [0u8; 0];
        let mut full = Full::open(Shape::new(1, 0)?, &mut bytes);
        assert_eq!(rt; full.set_count(), 0);
        refuses_set(&mut full, 0)?;
        Ok(())
    }

    #[test]
    fn sets_at_their_edges(rt: HostRuntime) -> Result<(), Fail> {
        let mut bytes = [0u8; 1100];
        let mut full = Full::open(Shape::new(3, 4)?, &mut bytes);
        assert_eq!(rt; full.set_count(), 2);
        refuses_set(&mut full, 2)?;
        refuses_set(&mut full, usize::MAX)?;
        Ok(())
    }

    #[test]
    fn codes_and_bits_at_their_edges(rt: HostRuntime) -> Result<(), Fail> {
        let mut bytes = [0u8; 1100];
        let mut full = Full::open(Shape::new(3, 4)?, &mut bytes);
        full.fill(1)?;
        assert_eq!(rt; full.has(1, 4095), Ok(true));
        assert_eq!(rt; full.has(1, 4096), Err(Fault::CodeTooHigh));
        assert_eq!(rt; full.has(1, usize::MAX), Err(Fault::CodeTooHigh));
        assert_eq!(rt; full.next(1, 0), Ok(Some(585)));
        assert_eq!(rt; full.next(1, 4095), Ok(Some(4095)));
        assert_eq!(rt; full.next(1, 4096), Ok(None));
        assert_eq!(rt; full.next(1, 4097), Err(Fault::CodeTooHigh));
        assert_eq!(rt; full.next(1, usize::MAX), Err(Fault::CodeTooHigh));
        assert_eq!(rt; full.pick(1, 12), Err(Fault::NoSuchBit));
        assert_eq!(rt; full.pick(1, usize::MAX), Err(Fault::NoSuchBit));
        assert_eq!(rt; full.pick(1, 11), Ok(()));
        assert_eq!(rt; full.next(1, 0), Ok(Some(2121)));
        Ok(())
    }

    #[test]
    fn spare_bits_stay(rt: HostRuntime) -> Result<(), Fail> {
        let shape = Shape::new(1, 1)?;
        let mut bytes = [0xA5, 0x5B];
        Full::open(shape, &mut bytes).fill(0)?;
        assert_eq!(rt; bytes, [0xA6, 0x5B]);
        Full::open(shape, &mut bytes).flip(0)?;
        assert_eq!(rt; bytes, [0xA4, 0x5B]);
        Full::open(shape, &mut bytes).join(0, 1)?;
        assert_eq!(rt; bytes, [0xA7, 0x5B]);
        Full::open(shape, &mut bytes).pick(0, 0)?;
        assert_eq!(rt; bytes, [0xA6, 0x5B]);
        Full::open(shape, &mut bytes).meet(1, 0)?;
        assert_eq!(rt; bytes, [0xA6, 0x5A]);
        assert_eq!(rt; Full::open(shape, &mut bytes).same(0, 1), Ok(true));
        Full::open(shape, &mut bytes).clear(0)?;
        assert_eq!(rt; bytes, [0xA4, 0x5A]);
        Full::open(shape, &mut bytes).copy(0, 1)?;
        assert_eq!(rt; bytes, [0xA6, 0x5A]);
        Ok(())
    }

    #[test]
    fn one_code_without_variables(rt: HostRuntime) -> Result<(), Fail> {
        let shape = Shape::new(12, 0)?;
        let mut bytes = [0xFE];
        Full::open(shape, &mut bytes).fill(0)?;
        assert_eq!(rt; bytes, [0xFF]);
        assert_eq!(rt; Full::open(shape, &mut bytes).next(0, 1), Ok(None));
        Full::open(shape, &mut bytes).flip(0)?;
        assert_eq!(rt; bytes, [0xFE]);
        Ok(())
    }

    #[test]
    fn bytes_behind_the_last_set_stay(rt: HostRuntime) -> Result<(), Fail> {
        let mut bytes = [0x11, 0x22, 0x33, 0x44, 0x55];
        Full::open(Shape::new(3, 1)?, &mut bytes).fill(4)?;
        assert_eq!(rt; bytes, [0x11, 0x22, 0x33, 0x44, 0xFE]);
        let shape = Shape::new(4, 1)?;
        assert_eq!(rt; Full::open(shape, &mut bytes).set_count(), 2);
        Full::open(shape, &mut bytes).fill(1)?;
        assert_eq!(rt; bytes, [0x11, 0x22, 0xFE, 0xFF, 0xFE]);
        Full::open(shape, &mut bytes).flip(1)?;
        assert_eq!(rt; bytes, [0x11, 0x22, 0x00, 0x00, 0xFE]);
        Ok(())
    }

    #[test]
    fn a_set_and_itself(rt: HostRuntime) -> Result<(), Fail> {
        let mut bytes = [0x11, 0x22, 0x33];
        let mut full = Full::open(Shape::new(2, 2)?, &mut bytes);
        full.copy(0, 0)?;
        full.join(0, 0)?;
        full.meet(0, 0)?;
        assert_eq!(rt; full.same(0, 0), Ok(true));
        drop(full);
        assert_eq!(rt; bytes, [0x11, 0x22, 0x33]);
        Ok(())
    }

    // The smallest code of the universe that has every bit of the mask.
    fn first_with<S: Store + Drop>(below: S, mask: usize) -> Result<Option<usize>, Fault> {
        let mut fixed = Fixed::new(below, mask);
        fixed.fill(0)?;
        fixed.next(0, 0)
    }

    #[test]
    fn fixed_over_full(rt: HostRuntime) -> Result<(), Fail> {
        let mut bytes = [0u8; 512];
        let full = Full::open(Shape::new(3, 4)?, &mut bytes);
        assert_eq!(rt; first_with(full, 2050), Ok(Some(2122)));
        Ok(())
    }
}
