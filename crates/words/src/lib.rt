// Words, counts and names of a text.
#![tactic(auto)]

ghost use Rattle.std.specs.Prelude.{◌≡◌, ◌+◌, ◌<◌, ◌≤◌, cond, [], map, length, take, drop, replicate, IfSome, IfOk, nat_lt, slice_index_or, slice_set};
ghost use Rattle.std.specs.List.{prefix_len};
ghost use Rattle.std.specs.Option.{ok_or};
ghost use Rattle.words.specs.Words.{within, counted, class_of_first, class_of_tail, named, name_bytes, name_from, listed, lookup};
ghost use Rattle.words.specs.Walks.{Found};
ghost use Rattle.words.specs.Readers.{Counts, LooksUp, NewName};
ghost use Rattle.words.specs.Faults.{number, position};

// What is wrong with a sheet, and the position of the word at fault.
#[derive(Clone, Copy, Debug, PartialEq)]
pub enum Fault {
    TooLong,
    ForeignByte(usize),
    TextEnds(usize),
    BadCount(usize),
    BadName(usize),
    NameTaken(usize),
    NotNamed(usize),
    Repeated(usize),
    TooManyBits(usize),
    BadBraces(usize),
    TooDeep(usize),
    TooManyNodes(usize),
}

// A text, and the position from which it is read on. Any position is answered.
#[derive(Debug, PartialEq, Drop)]
pub struct Reader<'a> {
    pub text: &'a [u8],
    pub at: usize,
}

// A word of a text, and the position where it starts.
#[derive(Clone, Copy, Debug, PartialEq)]
pub struct Word<'a> {
    pub bytes: &'a [u8],
    pub start: usize,
}

// A name of at most eight bytes; those behind it are 0. Its length stands beside them, as the count in a list of names: no
// heap stands below the program, and any value is answered.
#[derive(Clone, Copy)]
pub struct Name {
    pub bytes: [u8; 8],
    pub len: usize,
}

// Names under numbers from 0 on: the first `count` of the cells, or all where there are fewer.
#[derive(Clone, Copy)]
pub struct NameList<const N: usize> {
    pub names: [Name; N],
    pub count: usize,
}

// The letters of a name: a to z for most, A to Z for variables.
#[derive(Clone, Copy, Debug, PartialEq)]
pub enum Letters {
    Lower,
    Upper,
}

#[derive(Clone, Copy, Debug, PartialEq)]
pub enum Class {
    Blank,
    Solid,
    Allowed,
    Digit,
    Lower,
    Upper,
    LowerTail,
    UpperTail,
}

impl Fault {
    pub fn number(self) -> usize
        ensures { result ≡ number self }
    {
        match self {
            Fault::TooLong => 1,
            Fault::ForeignByte(_) => 2,
            Fault::TextEnds(_) => 3,
            Fault::BadCount(_) => 4,
            Fault::BadName(_) => 5,
            Fault::NameTaken(_) => 6,
            Fault::NotNamed(_) => 7,
            Fault::Repeated(_) => 8,
            Fault::TooManyBits(_) => 9,
            Fault::BadBraces(_) => 10,
            Fault::TooDeep(_) => 11,
            Fault::TooManyNodes(_) => 12,
        }
    }

    pub fn position(self) -> usize
        ensures { result ≡ position self }
    {
        match self {
            Fault::TooLong => 32768,
            Fault::ForeignByte(p)
            | Fault::TextEnds(p)
            | Fault::BadCount(p)
            | Fault::BadName(p)
            | Fault::NameTaken(p)
            | Fault::NotNamed(p)
            | Fault::Repeated(p)
            | Fault::TooManyBits(p)
            | Fault::BadBraces(p)
            | Fault::TooDeep(p)
            | Fault::TooManyNodes(p) => p,
        }
    }
}

impl<'a> Reader<'a> {
    // The next word; the reader then stands behind it, and where there is none it stays.
    pub fn word(&mut self) -> Result<Word<'a>, Fault>
        ensures found { Found self.old result self.new }
        ensures same { self.new.text ≡ self.old.text }
        ensures range { IfOk result (λ w. (self.old.at ≤ w.start) × (w.start < self.new.at) × (self.new.at ≤ length self.old.text.now)) }
    {
        let text = self.text;
        let start = self.at + leading(self.rest(), Class::Blank);
        if start >= text.len() {
            return Err(Fault::TextEnds(text.len()));
        }
        let length = leading(&text[start..], Class::Solid);
        let bytes = &text[start..start + length];
        if leading(bytes, Class::Allowed) < length {
            return Err(Fault::ForeignByte(start));
        }
        self.at = start + length;
        Ok(Word { bytes, start })
    }

    // The number that the next word stands for as a count.
    pub fn count(&mut self, low: u16, high: u16) -> Result<usize, Fault>
        ensures counts { Counts self.old low high result self.new }
        ensures same { self.new.text ≡ self.old.text }
        ensures range { IfOk result (λ n. (low ≤ n) × (n ≤ high)) }
    {
        self.word()?.count(low, high)
    }

    // The number under which the next word was given as a name.
    pub fn number_in(&mut self, given: &[Name]) -> Result<usize, Fault>
        ensures looks_up { LooksUp self.old (map name_bytes given.now) result self.new }
        ensures same { self.new.text ≡ self.old.text }
        ensures range { IfOk result (λ i. i < length given.now) }
    {
        self.word()?.number_in(given)
    }

    // The text that has not been read.
    pub fn rest(&self) -> &'a [u8]
        ensures { result.now ≡ drop self.now.at self.now.text.now }
    {
        &self.text[self.at.min(self.text.len())..]
    }
}

impl Word<'_> {
    pub fn count(&self, low: u16, high: u16) -> Result<usize, Fault>
        ensures value { result ≡ ok_or (counted self.now.bytes.now low high) (Fault.BadCount self.now.start) }
        ensures range { IfOk result (λ n. (low ≤ n) × (n ≤ high)) }
    {
        count_of(self.bytes, low, high).ok_or(Fault::BadCount(self.start))
    }

    pub fn number_in(&self, given: &[Name]) -> Result<usize, Fault>
        ensures value { result ≡ ok_or (lookup self.now.bytes.now (map name_bytes given.now)) (Fault.NotNamed self.now.start) }
        ensures range { IfOk result (λ i. i < length given.now) }
    {
        find_name(given, self.bytes).ok_or(Fault::NotNamed(self.start))
    }

    // The word as a name that none of those given has.
    pub fn new_name(&self, letters: Letters, given: &[Name]) -> Result<Name, Fault>
        ensures { NewName letters (map name_bytes given.now) self.now result }
    {
        if !is_name(self.bytes, letters) {
            return Err(Fault::BadName(self.start));
        }
        if find_name(given, self.bytes).is_some() {
            return Err(Fault::NameTaken(self.start));
        }
        Ok(name_of(self.bytes))
    }
}

impl Name {
    pub const BLANK: Name = Name {
        bytes: [0; 8],
        len: 0,
    };

    pub fn as_bytes(&self) -> &[u8]
        ensures { result.now ≡ name_bytes self.now }
    {
        &self.bytes[..self.len.min(8)]
    }
}

impl<const N: usize> NameList<N> {
    pub fn blank() -> NameList<N>
        ensures names { result.names ≡ replicate N Name.BLANK }
        ensures count { result.count ≡ 0 }
    {
        NameList {
            names: [Name::BLANK; N],
            count: 0,
        }
    }

    // One name more; a list that is full stays as it is.
    pub fn push(&mut self, name: Name)
        ensures names { self.new.names ≡ slice_set self.old.names self.old.count name }
        ensures count { self.new.count ≡ cond (nat_lt self.old.count N) (self.old.count + 1) self.old.count }
    {
        if self.count < N {
            self.names[self.count] = name;
            self.count += 1;
        }
    }

    // The names that the list has; behind its cells there are none.
    pub fn as_slice(&self) -> &[Name]
        ensures { result.now ≡ take self.now.count self.now.names }
    {
        &self.names[..self.count.min(N)]
    }

    pub fn find(&self, word: &[u8]) -> Option<usize>
        ensures value { result ≡ lookup word.now (listed self.now) }
        ensures range { IfSome result (λ i. (i < self.now.count) × (i < N)) }
    {
        find_name(self.as_slice(), word)
    }

    // The bytes of a name; none where there is no such name.
    pub fn name(&self, i: usize) -> &[u8]
        ensures { result.now ≡ slice_index_or (listed self.now) i [] }
    {
        match self.as_slice().get(i) {
            Some(name) => name.as_bytes(),
            None => &[],
        }
    }
}

impl Class {
    fn contains(self, b: u8) -> bool
        ensures { result ≡ within self b }
    {
        match self {
            Class::Blank => matches!(b, b' ' | b'\n'),
            Class::Solid => !matches!(b, b' ' | b'\n'),
            Class::Allowed => b.is_ascii_alphanumeric() || matches!(b, b'_' | b'{' | b'}'),
            Class::Digit => b.is_ascii_digit(),
            Class::Lower => b.is_ascii_lowercase(),
            Class::Upper => b.is_ascii_uppercase(),
            Class::LowerTail => b.is_ascii_lowercase() || b.is_ascii_digit() || b == b'_',
            Class::UpperTail => b.is_ascii_uppercase() || b.is_ascii_digit() || b == b'_',
        }
    }
}

// How many bytes of this class the text begins with.
fn leading(text: &[u8], class: Class) -> usize
    ensures { result ≡ prefix_len (within class) text.now }
{
    text.iter().take_while(|b| class.contains(**b)).count()
}

// The number that a count stands for, if it is one within its limits.
pub fn count_of(word: &[u8], low: u16, high: u16) -> Option<usize>
    ensures value { result ≡ counted word.now low high }
    ensures range { IfSome result (λ n. (low ≤ n) × (n ≤ high)) }
{
    if word.is_empty() || word[0] == b'0' && word.len() > 1 {
        return None;
    }
    let mut n: usize = 0;
    for b in word {
        if !b.is_ascii_digit() {
            return None;
        }
        n = n * 10 + (*b - b'0') as usize;
        if n > high as usize {
            return None;
        }
    }
    if n < low as usize { None } else { Some(n) }
}

// The two differ in every case, so that one function would only take a flag more.
impl Letters {
    fn first_class(self) -> Class
        ensures { result ≡ class_of_first self }
    {
        match self {
            Letters::Lower => Class::Lower,
            Letters::Upper => Class::Upper,
        }
    }

    fn tail_class(self) -> Class
        ensures { result ≡ class_of_tail self }
    {
        match self {
            Letters::Lower => Class::LowerTail,
            Letters::Upper => Class::UpperTail,
        }
    }
}

pub fn is_name(word: &[u8], letters: Letters) -> bool
    ensures { result ≡ named letters word.now }
{
    if word.len() == 0 || word.len() > 8 {
        return false;
    }
    letters.first_class().contains(word[0]) && leading(word, letters.tail_class()) == word.len()
}

// The name that a word is kept as; of a longer word the first eight bytes.
pub fn name_of(word: &[u8]) -> Name
    ensures { result ≡ name_from word.now }
{
    let mut bytes = [0u8; 8];
    let len = word.len().min(8);
    bytes[..len].copy_from_slice(&word[..len]);
    Name { bytes, len }
}

// The number under which a word was given as a name.
pub fn find_name(names: &[Name], word: &[u8]) -> Option<usize>
    ensures value { result ≡ lookup word.now (map name_bytes names.now) }
    ensures range { IfSome result (λ i. i < length names.now) }
{
    names.iter().position(|name| name.as_bytes() == word)
}
