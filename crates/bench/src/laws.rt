// Laws of the ledger.
ghost use Rattle.bench.specs.Laws.{AnswersOne, EntriesOne};

// Two answers that the ledger says to a call are equal.
pub fn answers_are_unique() -> u8
    ensures { AnswersOne }
{
    0
}

// After a call the ledger has one entry.
pub fn entries_are_unique() -> u8
    ensures { EntriesOne }
{
    0
}
