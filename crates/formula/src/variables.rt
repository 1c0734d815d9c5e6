// The variables that a formula sheet names.
ghost use Rattle.std.specs.Prelude.{◌≡◌, ◌<◌, ◌≤◌, map, IfOk};
ghost use Rattle.words.specs.Words.{name_bytes, name_from, listed};
ghost use Rattle.model.specs.Values.{names_kept};
ghost use Rattle.formula.specs.VariablesReading.{CountRead, NameRead, VariablesRead};

use model::vocabulary::Vocabulary;
use words::{Fault, Letters, Name, NameList, Reader};

// A valuation has at most so many bits: one for each action of each variable.
const MOST_BITS: usize = 12;

// The variables, each under a name of its own.
pub(crate) fn read_variables(
    reader: &mut Reader<'_>,
    vocabulary: &Vocabulary,
) -> Result<NameList<4>, Fault>
    ensures reads { VariablesRead vocabulary.now reader.old result reader.new }
    ensures same { reader.new.text ≡ reader.old.text }
    ensures kept { IfOk result (λ x. x ≡ names_kept 4 (listed x)) }
{
    let count = read_count(reader, vocabulary)?;
    let mut variables = NameList::blank();
    for _ in 0..count {
        let name = read_name(reader, variables.as_slice())?;
        variables.push(name);
    }
    Ok(variables)
}

// The count of variables.
fn read_count(reader: &mut Reader<'_>, vocabulary: &Vocabulary) -> Result<usize, Fault>
    ensures reads { CountRead vocabulary.now reader.old result reader.new }
    ensures same { reader.new.text ≡ reader.old.text }
    ensures range { IfOk result (λ k. k ≤ 4) }
{
    let word = reader.word()?;
    let count = word.count(0, 4)?;
    if vocabulary.actions.as_slice().len() * count > MOST_BITS {
        return Err(Fault::TooManyBits(word.start));
    }
    Ok(count)
}

// The next variable's name, behind those that are taken.
fn read_name(reader: &mut Reader<'_>, taken: &[Name]) -> Result<Name, Fault>
    ensures reads { NameRead reader.old (map name_bytes taken.now) result reader.new }
    ensures same { reader.new.text ≡ reader.old.text }
    ensures range { IfOk result (λ n. name_from (name_bytes n) ≡ n) }
{
    reader.word()?.new_name(Letters::Upper, taken)
}
