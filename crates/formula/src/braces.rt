// A set of actions written out between braces.
ghost use Rattle.std.specs.Prelude.{◌≡◌, ◌^◌, ◌<◌, IfSome};
ghost use Rattle.logic.specs.Codes.{bit};
ghost use Rattle.words.specs.Words.{listed};
ghost use Rattle.words.specs.Walks.{Reads};
ghost use Rattle.formula.specs.Braces.{Within, brace_or_name_of, brace_rules, inside, closed};

use words::{Fault, NameList, Reader, Word};

// What a word says where a brace or a name may stand.
#[derive(Clone, Copy)]
pub enum BraceOrName {
    Brace,
    Name(usize),
}

pub(crate) fn brace_or_name<const N: usize>(
    word: &[u8],
    brace: &[u8],
    names: &NameList<N>,
) -> Option<BraceOrName>
    ensures value { result ≡ brace_or_name_of brace.now word.now (listed names.now) }
    ensures range { IfSome result (Within N) }
{
    if word == brace {
        return Some(BraceOrName::Brace);
    }
    names.find(word).map(BraceOrName::Name)
}

// The code of the set whose `{` has been read.
pub(crate) fn read_braces(reader: &mut Reader<'_>, actions: &NameList<12>) -> Result<usize, Fault>
    ensures reads { Reads (brace_rules (listed actions.now)) (inside 0) reader.old result closed reader.new }
    ensures same { reader.new.text ≡ reader.old.text }
{
    let mut set: usize = 0;
    loop {
        let Word { bytes, start } = reader.word()?;
        match brace_or_name(bytes, b"}", actions).ok_or(Fault::NotNamed(start))? {
            BraceOrName::Brace if set == 0 => return Err(Fault::BadBraces(start)),
            BraceOrName::Brace => return Ok(set),
            BraceOrName::Name(a) if has(set, a) => return Err(Fault::BadBraces(start)),
            BraceOrName::Name(a) => set |= 1 << a,
        }
    }
}

fn has(set: usize, action: usize) -> bool
    requires { action < 64 }
    ensures { result ≡ bit set action }
{
    (set >> action) % 2 == 1
}
