// listings: what a bench lists for each formula sheet of a text, at every state, over each make of store.
#![tactic(auto)]

use bench::bench::Bench;
use bench::fault::Fault;
use formula::{Formula, read_formula};
use full::full::Full;
use model::{Model, read_model};
use std::io;
use std::io::Read;
use store::calls::Store;
use store::fixed::Fixed;
use store::shape::Shape;
use store::single::Single;

const CODES: usize = 4096;

// Where a call is refused, by what.
fn print_refusal<T: Drop>(rt: &HostRuntime, answer: Result<T, Fault>) -> io::Result<()> {
    match answer {
        Ok(_) => Ok(()),
        Err(fault) => println!(rt; "{fault}"),
    }
}

fn print_code(rt: &HostRuntime, code: Option<usize>) -> io::Result<()> {
    match code {
        Some(c) => print!(rt; " {c}"),
        None => print!(rt; " none"),
    }
}

// The codes that a question names, from 0 on.
fn print_codes<F: Fn(usize) -> Result<Option<usize>, Fault>>(
    rt: &HostRuntime,
    ask: F,
) -> io::Result<()>
    requires { F.IsAlwaysCallable ask }
{
    let mut from = 0;
    for _ in 0..CODES {
        let Ok(Some(code)) = ask(from) else {
            return Ok(());
        };
        print!(rt; " {code}")?;
        from = code.saturating_add(1);
    }
    Ok(())
}

fn print_state<S: Store>(rt: &HostRuntime, bench: &Bench<S>, state: usize) -> io::Result<()> {
    print!(rt; "state {state} lists")?;
    print_codes(rt, |from| bench.next(state, from))?;
    match bench.count(state) {
        Ok(codes) => print!(rt; " count {codes} smallest")?,
        Err(fault) => return println!(rt; "{fault}"),
    }
    match bench.smallest(state) {
        Ok(code) => print_code(rt, code)?,
        Err(fault) => return println!(rt; "{fault}"),
    }
    print!(rt; " least")?;
    print_codes(rt, |from| bench.least(state, from))?;
    println!(rt; "")
}

// A formula over a model, and where its listings go.
#[derive(Clone, Copy)]
struct Listing<'a> {
    rt: &'a HostRuntime,
    model: &'a Model,
    formula: &'a Formula,
}

impl<'a> Listing<'a> {
    // Nothing is judged before, and a refused judge after an accepted one leaves what is listed.
    fn print_bench<S: Store + Drop>(&self, make: &str, store: S) -> io::Result<()> {
        let rt = self.rt;
        let mut bench = Bench::open(self.model, store);
        print_refusal(rt, bench.count(0))?;
        match bench.judge(self.formula) {
            Ok(rounds) => println!(rt; "{make} rounds {rounds}")?,
            Err(fault) => println!(rt; "{fault}")?,
        }
        print_refusal(rt, bench.judge(&Formula::BLANK))?;
        for state in 0..self.model.table.state_count() {
            print_state(rt, &bench, state)?;
        }
        print_refusal(rt, bench.next(64, 0))?;
        print_refusal(rt, bench.holds(0, usize::MAX))?;
        print_refusal(rt, bench.least(0, usize::MAX))
    }

    fn print_fixed<S: Store + Drop>(&self, make: &str, below: S, mask: usize) -> io::Result<()> {
        self.print_bench(make, Fixed::new(below, mask))
    }

    fn print_single(&self, shape: Shape, bytes: &mut [u8]) -> io::Result<()> {
        match Single::open(shape, shape.codes() - 1, bytes) {
            Ok(store) => self.print_bench("single", store),
            Err(_) => println!(self.rt; "no valuation"),
        }
    }

    // The mask asks for action 1 of the first variable, which the valuation of action 0 alone lacks.
    fn print_empty(&self, shape: Shape, bytes: &mut [u8]) -> io::Result<()> {
        let mut code = 0;
        for y in 0..shape.variables() {
            code |= 1usize << (y * shape.actions()).min(12);
        }
        match Single::open(shape, code, bytes) {
            Ok(store) => self.print_fixed("empty", store, 2),
            Err(_) => println!(self.rt; "no valuation"),
        }
    }

    fn print_makes(&self, bytes: &mut [u8]) -> io::Result<()> {
        let Ok(shape) = Shape::new(self.formula.actions(), self.formula.variables()) else {
            return println!(self.rt; "no shape");
        };
        self.print_bench("full", Full::open(shape, bytes))?;
        self.print_fixed("fixed", Full::open(shape, bytes), 1)?;
        self.print_single(shape, bytes)?;
        self.print_empty(shape, bytes)
    }
}

fn main(rt: HostRuntime) -> io::Result<()> {
    let mut input = Vec::new(rt.alloc());
    rt.stdin().take(32769).read_to_end(&mut input)?;
    let mut bytes = vec![in rt.alloc(); 0xA5u8; 16384]?;
    let mut model = Model::BLANK;
    let mut formula = Formula::BLANK;
    let mut rest = match read_model(input.as_slice(), &mut model) {
        Ok(read) => read.rest,
        Err(_) => return println!(rt; "no model"),
    };
    for _ in 0..input.len() {
        match read_formula(rest, &model.vocabulary, &mut formula) {
            Ok(left) => rest = left,
            Err(_) => return Ok(()),
        }
        let listing = Listing {
            rt: &rt,
            model: &model,
            formula: &formula,
        };
        listing.print_makes(bytes.as_mut_slice())?;
    }
    Ok(())
}
