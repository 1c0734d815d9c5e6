// The reader of formula sheets.
ghost use Rattle.formula.specs.Sheets.{Read, Agree, OneReading, NeverBoth, OneRefusal};

use crate::Formula;
use crate::arena::Arena;
use crate::nodes::Names;
use crate::parts::read_part;
use crate::variables::read_variables;
use model::vocabulary::Vocabulary;
use words::{Fault, Reader};

// A text has at most so many bytes.
const LONGEST: usize = 32768;

// The rest of the text starts right behind the last word of the sheet.
pub fn read_formula<'a>(
    text: &'a [u8],
    vocabulary: &Vocabulary,
    place: &mut Formula,
) -> Result<&'a [u8], Fault>
    ensures { Read text.now vocabulary.now place.old place.new result }
{
    if text.len() > LONGEST {
        return Err(Fault::TooLong);
    }
    let mut reader = Reader { text, at: 0 };
    let variables = read_variables(&mut reader, vocabulary)?;
    let known = Names {
        vocabulary,
        variables: &variables,
    };
    let mut arena = Arena::new();
    read_part(&mut reader, 1, known, &mut arena)?;
    *place = Formula {
        nodes: arena.cells(),
        node_count: arena.used(),
        actions: vocabulary.actions.as_slice().len(),
        properties: vocabulary.properties.as_slice().len(),
        variables,
    };
    Ok(reader.rest())
}

// The grammar and the rules of the sheet say the same.
pub fn grammar_and_rules_agree() -> u8
    ensures { Agree }
{
    0
}

// A text has at most one reading.
pub fn one_reading() -> u8
    ensures { OneReading }
{
    0
}

// A text that has a reading is not refused.
pub fn reading_or_refusal() -> u8
    ensures { NeverBoth }
{
    0
}

// A text has at most one refusal.
pub fn one_refusal() -> u8
    ensures { OneRefusal }
{
    0
}
