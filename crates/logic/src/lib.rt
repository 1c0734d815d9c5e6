// The logic: what the software is about, as definitions in specs/, and the theorems on it. Each function stands for a
// theorem, which is its contract.

#![tactic(auto)]

ghost use Rattle.logic.specs.Laws.{RoundsDecide, HoldsOrNot, StagesOrdered, StillMeans, StagesSettle};
ghost use Rattle.logic.specs.Laws.{RoundsUnique, RoundsOne, RoundsFew, ExistentialGrows, WordsMean};
ghost use Rattle.logic.specs.Laws.{ValuationTested, InclusionOrder, ListedMinimal};
ghost use Rattle.logic.specs.Endings.{EndingsDiffer};
ghost use Rattle.logic.specs.Display.{DisplayLists, DisplayRounds, DisplayWords};

pub fn rounds_decide() -> u8
    ensures { RoundsDecide }
{
    0
}

pub fn holds_or_not() -> u8
    ensures { HoldsOrNot }
{
    0
}

pub fn stages_ordered() -> u8
    ensures { StagesOrdered }
{
    0
}

pub fn still_stage_means() -> u8
    ensures { StillMeans }
{
    0
}

pub fn stages_settle() -> u8
    ensures { StagesSettle }
{
    0
}

pub fn rounds_are_never_two_numbers() -> u8
    ensures { RoundsUnique }
{
    0
}

pub fn rounds_are_one_number() -> u8
    ensures { RoundsOne }
{
    0
}

pub fn rounds_are_few() -> u8
    ensures { RoundsFew }
{
    0
}

pub fn display_lists() -> u8
    ensures { DisplayLists }
{
    0
}

pub fn display_rounds() -> u8
    ensures { DisplayRounds }
{
    0
}

pub fn display_shows_each_word() -> u8
    ensures { DisplayWords }
{
    0
}

pub fn existential_part_grows() -> u8
    ensures { ExistentialGrows }
{
    0
}

pub fn words_mean_their_letters() -> u8
    ensures { WordsMean }
{
    0
}

pub fn endings_differ() -> u8
    ensures { EndingsDiffer }
{
    0
}

pub fn valuation_is_tested() -> u8
    ensures { ValuationTested }
{
    0
}

pub fn inclusion_is_an_order() -> u8
    ensures { InclusionOrder }
{
    0
}

pub fn listed_includes_minimal() -> u8
    ensures { ListedMinimal }
{
    0
}
