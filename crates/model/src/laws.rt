// What holds of every text, of every content and of every table: each function's contract is a theorem.
ghost use Rattle.model.specs.Laws.{SheetsAreWalks, OneReading, OneRefusal, NeverBoth, NamesLookUp, GivesBack, TablesAreSound};

pub fn sheets_are_walks() -> u8
    ensures { SheetsAreWalks }
{
    0
}

pub fn one_reading() -> u8
    ensures { OneReading }
{
    0
}

pub fn one_refusal() -> u8
    ensures { OneRefusal }
{
    0
}

pub fn never_both() -> u8
    ensures { NeverBoth }
{
    0
}

pub fn names_look_up() -> u8
    ensures { NamesLookUp }
{
    0
}

pub fn gives_back() -> u8
    ensures { GivesBack }
{
    0
}

pub fn tables_are_sound() -> u8
    ensures { TablesAreSound }
{
    0
}
