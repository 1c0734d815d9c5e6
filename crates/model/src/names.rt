// The sections of names.
ghost use Rattle.std.specs.Prelude.{◌≡◌, ℕ, ◌≤◌, [], ◌∷◌, ◌++◌, map, IfOk, Decides};
ghost use Rattle.std.specs.List.{ContainsAt as Has};
ghost use Rattle.words.specs.Words.{name_bytes, name_from, listed};
ghost use Rattle.words.specs.Walks.{Reads};
ghost use Rattle.model.specs.Content.{Content, names, fewest, most, names_of, reserved_words, Kept};
ghost use Rattle.model.specs.Rules.{count, name, at, behind, due_names, with_names, model_rules};
ghost use Rattle.model.specs.Values.{names_kept};

use words::{Fault, Letters, Name, NameList, Reader};

#[derive(Clone, Copy, Debug, PartialEq)]
pub enum Names {
    States,
    Actions,
    Properties,
}

impl Names {
    fn fewest(self) -> u16
        ensures { result ≡ fewest (names self) }
    {
        match self {
            Names::States | Names::Actions => 1,
            Names::Properties => 0,
        }
    }

    fn most(self) -> u16
        ensures { result ≡ most (names self) }
    {
        match self {
            Names::States => 64,
            Names::Actions => 12,
            Names::Properties => 16,
        }
    }

    // Whether the section keeps this word for other use.
    fn keeps(self, word: &[u8]) -> bool
        ensures { Decides result (Kept self word.now) }
    {
        match self {
            Names::States | Names::Actions => false,
            Names::Properties => is_reserved(word),
        }
    }
}

pub(crate) fn read_names<const N: usize>(
    reader: &mut Reader<'_>,
    kind: Names,
) -> Result<NameList<N>, Fault>
    requires room { most (names kind) ≤ N }
    ensures reads { (c : Content) → Reads model_rules (at (count (names kind)) (with_names kind c [])) reader.old result (λ x. at (count (behind kind)) (with_names kind c (listed x))) reader.new }
    ensures same { reader.new.text ≡ reader.old.text }
    ensures kept { IfOk result (λ x. x ≡ names_kept N (listed x)) }
    ensures range { IfOk result (λ x. x.count ≤ most (names kind)) }
{
    let count = reader.count(kind.fewest(), kind.most())?;
    let mut list = NameList::blank();
    for _ in 0..count {
        let name = read_name(reader, kind, list.as_slice())?;
        list.push(name);
    }
    Ok(list)
}

// The next word, which is to be a name that its section may give.
fn read_name(reader: &mut Reader<'_>, kind: Names, seen: &[Name]) -> Result<Name, Fault>
    ensures reads { (c : Content) (m : ℕ) → names_of c kind ≡ map name_bytes seen.now → Reads model_rules (at (name kind m) c) reader.old result (λ x. at (due_names kind m) (with_names kind c (names_of c kind ++ name_bytes x ∷ []))) reader.new }
    ensures same { reader.new.text ≡ reader.old.text }
    ensures kept { IfOk result (λ x. x ≡ name_from (name_bytes x)) }
{
    let word = reader.word()?;
    let name = word.new_name(Letters::Lower, seen)?;
    if kind.keeps(word.bytes) {
        return Err(Fault::NameTaken(word.start));
    }
    Ok(name)
}

// The words that no property may have as its name.
const RESERVED: [&[u8]; 20] = [
    b"true", b"not", b"or", b"and", b"ex", b"exw", b"eg", b"egw", b"eu", b"euw", b"ef", b"efw",
    b"ax", b"axw", b"ag", b"agw", b"au", b"auw", b"af", b"afw",
];

fn is_reserved(word: &[u8]) -> bool
    ensures { Decides result (Has reserved_words word.now) }
{
    RESERVED.iter().any(|reserved| *reserved == word)
}
