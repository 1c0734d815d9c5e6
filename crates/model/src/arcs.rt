// The section of arcs.
ghost use Rattle.std.specs.Prelude.{◌≡◌, ℕ, ◌≤◌, [], ◌∷◌, ◌++◌, map, take, IfOk};
ghost use Rattle.words.specs.Words.{name_bytes};
ghost use Rattle.words.specs.Walks.{Reads};
ghost use Rattle.model.specs.Content.{Content, arcs};
ghost use Rattle.model.specs.Rules.{count, nothing, arc_from, at, due_arcs, with_arcs, model_rules};
ghost use Rattle.model.specs.Values.{padded, blank_arc, arc_of, single};

use crate::table::Arc;
use words::{Fault, Name, Reader};

// The arcs of a sheet, in front in their array: no heap stands below the program.
#[derive(Clone, Copy)]
pub struct ArcList {
    pub arcs: [Arc; 512],
    pub count: usize,
}

#[inline(never)]
pub fn read_arcs(
    reader: &mut Reader<'_>,
    states: &[Name],
    actions: &[Name],
) -> Result<ArcList, Fault>
    ensures reads { (c : Content) → c.states ≡ map name_bytes states.now → c.actions ≡ map name_bytes actions.now → Reads model_rules (at (count arcs) (with_arcs c [])) reader.old result (λ x. at nothing (with_arcs c (map single (take x.count x.arcs)))) reader.new }
    ensures same { reader.new.text ≡ reader.old.text }
    ensures kept { IfOk result (λ x. x.arcs ≡ padded 512 blank_arc (map arc_of (map single (take x.count x.arcs)))) }
    ensures range { IfOk result (λ x. x.count ≤ 512) }
{
    let count = reader.count(0, 512)?;
    let mut arcs = [Arc::BLANK; 512];
    // By index, since each arc is compared with those in front of its cell.
    for i in 0..count {
        arcs[i] = read_arc(reader, states, actions, &arcs[..i])?;
    }
    Ok(ArcList { arcs, count })
}

// The next three words, which are to be an arc that does not stand there yet.
fn read_arc(
    reader: &mut Reader<'_>,
    states: &[Name],
    actions: &[Name],
    seen: &[Arc],
) -> Result<Arc, Fault>
    ensures reads { (c : Content) (m : ℕ) → c.states ≡ map name_bytes states.now → c.actions ≡ map name_bytes actions.now → c.arcs ≡ map single seen.now → Reads model_rules (at (arc_from m) c) reader.old result (λ x. at (due_arcs m) (with_arcs c (c.arcs ++ single x ∷ []))) reader.new }
    ensures same { reader.new.text ≡ reader.old.text }
{
    let from = reader.number_in(states)?;
    let action = reader.number_in(actions)?;
    let word = reader.word()?;
    let to = word.number_in(states)?;
    let arc = Arc { from, action, to };
    if seen.contains(&arc) {
        return Err(Fault::Repeated(word.start));
    }
    Ok(arc)
}
