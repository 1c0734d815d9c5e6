// The section of labels.
ghost use Rattle.std.specs.Prelude.{◌≡◌, ℕ, ◌<◌, ◌≤◌, [], ◌∷◌, ◌++◌, map, length, IfOk};
ghost use Rattle.words.specs.Words.{name_bytes};
ghost use Rattle.words.specs.Walks.{Reads};
ghost use Rattle.model.specs.Content.{Content};
ghost use Rattle.model.specs.Rules.{label_state, at, due_labels, with_labels, model_rules};
ghost use Rattle.model.specs.Values.{label_rows};
ghost use Rattle.model.specs.Readings.{ReadsLabels};

use words::{Fault, Name, Reader};

// A row of cells for each state, and how many labels are marked there.
#[derive(Clone, Copy)]
pub struct Labels {
    pub rows: [[bool; 16]; 64],
    pub count: usize,
}

// A property of a state, both by number.
#[derive(Clone, Copy)]
pub struct Label {
    pub state: usize,
    pub property: usize,
}

pub(crate) fn read_labels(
    reader: &mut Reader<'_>,
    states: &[Name],
    properties: &[Name],
) -> Result<Labels, Fault>
    requires states { length states.now ≤ 64 }
    requires properties { length properties.now ≤ 16 }
    ensures reads { (c : Content) → c.states ≡ map name_bytes states.now → c.properties ≡ map name_bytes properties.now → ReadsLabels reader.old c result reader.new }
    ensures same { reader.new.text ≡ reader.old.text }
{
    let count = reader.count(0, 1024)?;
    let mut rows = [[false; 16]; 64];
    for _ in 0..count {
        let label = read_label(reader, states, properties, &rows)?;
        rows[label.state][label.property] = true;
    }
    Ok(Labels { rows, count })
}

// The next two words, which are to be a label that does not stand in the rows yet.
fn read_label(
    reader: &mut Reader<'_>,
    states: &[Name],
    properties: &[Name],
    rows: &[[bool; 16]; 64],
) -> Result<Label, Fault>
    requires states { length states.now ≤ 64 }
    requires properties { length properties.now ≤ 16 }
    ensures reads { (c : Content) (m : ℕ) → c.states ≡ map name_bytes states.now → c.properties ≡ map name_bytes properties.now → rows.now ≡ label_rows c.labels → Reads model_rules (at (label_state m) c) reader.old result (λ x. at (due_labels m) (with_labels c (c.labels ++ record { state = x.state; property = x.property } ∷ []))) reader.new }
    ensures same { reader.new.text ≡ reader.old.text }
    ensures range { IfOk result (λ x. (x.state < 64) × (x.property < 16)) }
{
    let state = reader.number_in(states)?;
    let word = reader.word()?;
    let property = word.number_in(properties)?;
    if rows[state][property] {
        return Err(Fault::Repeated(word.start));
    }
    Ok(Label { state, property })
}
