// The five sections of a sheet, one behind the other.
ghost use Rattle.std.specs.Prelude.{◌≡◌};
ghost use Rattle.model.specs.Models.{ReadsAll, gathered};

use crate::Model;
use crate::arcs::{ArcList, read_arcs};
use crate::labels::{Labels, read_labels};
use crate::names::{Names, read_names};
use crate::table::Table;
use crate::vocabulary::Vocabulary;
use words::{Fault, NameList, Reader};

// What was read of each section.
#[derive(Clone, Copy)]
pub struct Sections {
    pub states: NameList<64>,
    pub actions: NameList<12>,
    pub properties: NameList<16>,
    pub labels: Labels,
    pub arcs: ArcList,
}

#[inline(never)]
pub fn read_sections(reader: &mut Reader<'_>) -> Result<Sections, Fault>
    ensures reads { ReadsAll reader.old result reader.new }
    ensures same { reader.new.text ≡ reader.old.text }
{
    let states = read_names(reader, Names::States)?;
    let actions = read_names(reader, Names::Actions)?;
    let properties = read_names(reader, Names::Properties)?;
    let labels = read_labels(reader, states.as_slice(), properties.as_slice())?;
    let arcs = read_arcs(reader, states.as_slice(), actions.as_slice())?;
    Ok(Sections {
        states,
        actions,
        properties,
        labels,
        arcs,
    })
}

impl Sections {
    // The model that the sections make. Not inlined, nor are `read_sections` and `read_arcs`: the room for what a function keeps
    // is taken when it is called, so that a text that is refused earlier does not pay for it.
    #[inline(never)]
    pub fn model(&self) -> Model
        ensures { result ≡ gathered self.now }
    {
        let vocabulary = Vocabulary {
            actions: self.actions,
            properties: self.properties,
        };
        let table = Table {
            states: self.states.count,
            actions: self.actions.count,
            properties: self.properties.count,
            labels: self.labels.rows,
            arcs: self.arcs.arcs,
            arc_count: self.arcs.count,
        };
        Model {
            vocabulary,
            states: self.states,
            table,
        }
    }
}
