// The six calls as values, and what each answers where it is not refused.
ghost use Rattle.std.specs.Prelude.{Some};
ghost use Rattle.bench.specs.Texts.{answer_text};

use formula::Formula;
use std::fmt;

// Next and Least look from a place on.
#[derive(Clone, Copy)]
pub enum Call<'a> {
    Judge(&'a Formula),
    Holds(usize, usize),
    Next(usize, usize),
    Count(usize),
    Smallest(usize),
    Least(usize, usize),
}

#[derive(Clone, Copy, PartialEq, Eq, Debug)]
pub enum Answer {
    Rounds(usize),
    Holds(bool),
    Next(Option<usize>),
    Count(usize),
    Smallest(Option<usize>),
    Least(Option<usize>),
}

impl fmt::Display for Answer {
    ghost output = { λ answer. Some (answer_text answer) };

    fn fmt<W: fmt::Write>(&self, f: &mut fmt::Formatter<W>) -> fmt::Result {
        match *self {
            Answer::Rounds(rounds) => write!(f, "rounds {rounds}"),
            Answer::Holds(true) => write!(f, "holds yes"),
            Answer::Holds(false) => write!(f, "holds no"),
            Answer::Next(Some(code)) => write!(f, "next {code}"),
            Answer::Next(None) => write!(f, "next none"),
            Answer::Count(codes) => write!(f, "count {codes}"),
            Answer::Smallest(Some(code)) => write!(f, "smallest {code}"),
            Answer::Smallest(None) => write!(f, "smallest none"),
            Answer::Least(Some(code)) => write!(f, "least {code}"),
            Answer::Least(None) => write!(f, "least none"),
        }
    }
}
