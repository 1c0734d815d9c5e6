// One node of a formula: its first word, and what a temporal word speaks over.
ghost use Rattle.std.specs.Prelude.{◌≡◌, ◌<◌, ◌≤◌, OnOk};
ghost use Rattle.words.specs.Words.{listed};
ghost use Rattle.formula.specs.Reading.{HeadRead, AlphaRead, NodeRead};

use crate::braces::{BraceOrName, brace_or_name, read_braces};
use crate::heads::{Head, head_of};
use crate::{Alpha, Node};
use model::vocabulary::Vocabulary;
use words::{Fault, NameList, Reader, Word};

// A formula nests at most so deep, and has at most so many nodes.
const DEEPEST: usize = 12;

const MOST_NODES: usize = 64;

// The names that a formula is read against.
#[derive(Clone, Copy)]
pub struct Names<'a> {
    pub vocabulary: &'a Vocabulary,
    pub variables: &'a NameList<4>,
}

// The node with which a formula at this depth begins, behind so many others.
pub(crate) fn read_node(
    reader: &mut Reader<'_>,
    depth: usize,
    names: Names<'_>,
    used: usize,
) -> Result<Node, Fault>
    ensures reads { NodeRead names.entry.vocabulary.now reader.old (listed names.entry.variables.now) depth used result reader.new }
    ensures same { reader.new.text ≡ reader.old.text }
    ensures range { OnOk result ((depth ≤ 12) × (used < 64)) }
{
    match read_head(reader, depth, names.vocabulary, used)? {
        Head::Plain(node) => Ok(node),
        Head::Temporal(temporal) => Ok(temporal.over(read_alpha(reader, names)?)),
    }
}

// The first word of a formula at this depth, behind so many nodes.
fn read_head(
    reader: &mut Reader<'_>,
    depth: usize,
    vocabulary: &Vocabulary,
    used: usize,
) -> Result<Head, Fault>
    ensures reads { HeadRead vocabulary.now reader.old depth used result reader.new }
    ensures same { reader.new.text ≡ reader.old.text }
    ensures range { OnOk result ((depth ≤ 12) × (used < 64)) }
{
    let Word { bytes, start } = reader.word()?;
    let head = head_of(bytes, &vocabulary.properties).ok_or(Fault::NotNamed(start))?;
    if depth > DEEPEST {
        return Err(Fault::TooDeep(start));
    }
    if used >= MOST_NODES {
        return Err(Fault::TooManyNodes(start));
    }
    Ok(head)
}

// What the temporal word that was read last speaks over.
fn read_alpha(reader: &mut Reader<'_>, names: Names<'_>) -> Result<Alpha, Fault>
    ensures reads { AlphaRead names.entry.vocabulary.now reader.old (listed names.entry.variables.now) result reader.new }
    ensures same { reader.new.text ≡ reader.old.text }
{
    let Word { bytes, start } = reader.word()?;
    match brace_or_name(bytes, b"{", names.variables).ok_or(Fault::NotNamed(start))? {
        BraceOrName::Brace => Ok(Alpha::Written(read_braces(reader, &names.vocabulary.actions)?)),
        BraceOrName::Name(y) => Ok(Alpha::Variable(y)),
    }
}
