// A formula with its parts, read into the arena.
ghost use Rattle.std.specs.Prelude.{◌≡◌, ◌≤◌, length, take};
ghost use Rattle.words.specs.Words.{listed};
ghost use Rattle.formula.specs.Reading.{PartRead};

use crate::arena::Arena;
use crate::nodes::{Names, read_node};
use words::{Fault, Reader};

// The formula at this depth, put behind the nodes that are in use.
pub(crate) fn read_part(
    reader: &mut Reader<'_>,
    depth: usize,
    names: Names<'_>,
    arena: &mut Arena,
) -> Result<(), Fault>
    requires deep { depth ≤ 13 }
    ensures reads { PartRead names.entry.vocabulary.now reader.old (listed names.entry.variables.now) depth arena.old arena.new result reader.new }
    ensures same { reader.new.text ≡ reader.old.text }
    ensures front { take (length arena.old) arena.new ≡ arena.old }
{
    let node = read_node(reader, depth, names, arena.used())?;
    arena.push(node);
    for _ in 0..node.parts() {
        read_part(reader, depth + 1, names, arena)?;
    }
    Ok(())
}
