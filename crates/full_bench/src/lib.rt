// The calls of the full store, repeated for a clock outside (benchmarks/).
#![tactic(auto)]

use full::full::Full;
use store::calls::Store;
use store::fault::Fault;
use store::shape::Shape;

// Opens a store over the bytes and makes one call so often, on set 1 with the sets 2 and 3 by turns.
// The sum of the answers; 0 where the shape or a call was refused.
#[unsafe(no_mangle)]
pub extern "C" fn full_bench(
    cells: &mut [u8],
    actions: usize,
    variables: usize,
    call: u8,
    bit: usize,
    times: usize,
) -> usize {
    let Ok(shape) = Shape::new(actions, variables) else {
        return 0;
    };
    repeated(&mut Full::open(shape, cells), call, bit, times).unwrap_or(0)
}

fn repeated(full: &mut Full, call: u8, bit: usize, times: usize) -> Result<usize, Fault> {
    let mut sum = 0usize;
    for t in 0..times {
        sum = sum.wrapping_add(answer(full, call, bit, t)?);
    }
    Ok(sum)
}

// C hands the call over as its number.
fn answer(full: &mut Full, call: u8, bit: usize, t: usize) -> Result<usize, Fault> {
    let j = 2 + t % 2;
    match call {
        0 => full.clear(1)?,
        1 => full.fill(1)?,
        2 => full.copy(1, j)?,
        3 => full.join(1, j)?,
        4 => full.meet(1, j)?,
        5 => full.flip(1)?,
        6 => full.pick(1, bit)?,
        7 => return Ok(usize::from(full.same(1, j)?)),
        8 => return Ok(usize::from(full.has(1, t % 4096)?)),
        9 => return Ok(full.next(1, t % 8)?.unwrap_or(4096)),
        _ => {}
    }
    Ok(0)
}
