// The words that a formula can begin with.
ghost use Rattle.std.specs.Prelude.{◌≡◌};
ghost use Rattle.words.specs.Words.{listed};
ghost use Rattle.formula.specs.Heads.{reserved_head_of, head_of};
ghost use Rattle.formula.specs.Rules.{node_of};

use crate::{Alpha, Node, OnePart, TwoParts};
use words::NameList;

#[derive(Clone, Copy)]
pub enum Temporal {
    One(OnePart),
    Two(TwoParts),
}

impl Temporal {
    // The node of a word that speaks over this.
    pub(crate) fn over(self, alpha: Alpha) -> Node
        ensures { result ≡ node_of self alpha }
    {
        match self {
            Temporal::One(word) => Node::One(word, alpha),
            Temporal::Two(word) => Node::Two(word, alpha),
        }
    }
}

// A word that is a node by itself, or one that an α has to follow.
#[derive(Clone, Copy)]
pub enum Head {
    Plain(Node),
    Temporal(Temporal),
}

// What a formula that begins with this word is; a reserved word is never a property.
pub(crate) fn head_of(word: &[u8], properties: &NameList<16>) -> Option<Head>
    ensures { result ≡ head_of word.now (listed properties.now) }
{
    reserved_head(word).or_else(|| properties
        .find(word)
        .map(|i| Head::Plain(Node::Property(i))))
}

fn reserved_head(word: &[u8]) -> Option<Head>
    ensures { result ≡ reserved_head_of word.now }
{
    match word {
        b"true" => Some(Head::Plain(Node::True)),
        b"not" => Some(Head::Plain(Node::Not)),
        b"or" => Some(Head::Plain(Node::Or)),
        b"and" => Some(Head::Plain(Node::And)),
        b"ex" => Some(Head::Temporal(Temporal::One(OnePart::Ex))),
        b"exw" => Some(Head::Temporal(Temporal::One(OnePart::Exw))),
        b"eg" => Some(Head::Temporal(Temporal::One(OnePart::Eg))),
        b"egw" => Some(Head::Temporal(Temporal::One(OnePart::Egw))),
        b"eu" => Some(Head::Temporal(Temporal::Two(TwoParts::Eu))),
        b"euw" => Some(Head::Temporal(Temporal::Two(TwoParts::Euw))),
        b"ef" => Some(Head::Temporal(Temporal::One(OnePart::Ef))),
        b"efw" => Some(Head::Temporal(Temporal::One(OnePart::Efw))),
        b"ax" => Some(Head::Temporal(Temporal::One(OnePart::Ax))),
        b"axw" => Some(Head::Temporal(Temporal::One(OnePart::Axw))),
        b"ag" => Some(Head::Temporal(Temporal::One(OnePart::Ag))),
        b"agw" => Some(Head::Temporal(Temporal::One(OnePart::Agw))),
        b"au" => Some(Head::Temporal(Temporal::Two(TwoParts::Au))),
        b"auw" => Some(Head::Temporal(Temporal::Two(TwoParts::Auw))),
        b"af" => Some(Head::Temporal(Temporal::One(OnePart::Af))),
        b"afw" => Some(Head::Temporal(Temporal::One(OnePart::Afw))),
        _ => None,
    }
}
