// The model sheet: what it is read into, and its reader.
#![tactic(auto)]

ghost use Rattle.std.specs.Prelude.{◌≡◌};
ghost use Rattle.model.specs.Models.{ReadsModel};
ghost use Rattle.model.specs.Rules.{no_content};
ghost use Rattle.model.specs.Values.{model_of};

use table::Table;
use vocabulary::Vocabulary;
use words::{Fault, Name, NameList, Reader};

mod arcs;
mod labels;
pub mod laws;
mod names;
mod sections;
pub mod table;
pub mod vocabulary;

const TEXT_LIMIT: usize = 32768;

// A sheet that has been read; a blank one has nothing of anything.
#[derive(Clone, Copy)]
pub struct Model {
    pub vocabulary: Vocabulary,
    pub states: NameList<64>,
    pub table: Table,
}

impl Model {
    // Written out, since the value of a constant names no constant of a generic type.
    pub const BLANK: Model = Model {
        vocabulary: Vocabulary::BLANK,
        states: NameList {
            names: [Name::BLANK; 64],
            count: 0,
        },
        table: Table::BLANK,
    };

    // A place that nothing has been read into.
    pub fn blank() -> Model
        ensures { result ≡ model_of no_content }
    {
        Model::BLANK
    }
}

// How many of each a sheet has.
#[derive(Clone, Copy, Debug, PartialEq)]
pub struct Counts {
    pub states: usize,
    pub actions: usize,
    pub properties: usize,
    pub labels: usize,
    pub arcs: usize,
}

// The counts of a sheet that was read, and the text behind it.
#[derive(Drop)]
pub struct ModelRead<'a> {
    pub counts: Counts,
    pub rest: &'a [u8],
}

pub fn read_model<'a>(text: &'a [u8], place: &mut Model) -> Result<ModelRead<'a>, Fault>
    ensures { ReadsModel text.now place.old result place.new }
{
    if text.len() > TEXT_LIMIT {
        return Err(Fault::TooLong);
    }
    let mut reader = Reader { text, at: 0 };
    let read = sections::read_sections(&mut reader)?;
    *place = read.model();
    Ok(ModelRead {
        counts: Counts {
            states: read.states.count,
            actions: read.actions.count,
            properties: read.properties.count,
            labels: read.labels.count,
            arcs: read.arcs.count,
        },
        rest: reader.rest(),
    })
}
