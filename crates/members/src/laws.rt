// Laws of the words that the contracts cite.
ghost use Rattle.members.specs.Listed.{ListsUnique, ListedLists};
ghost use Rattle.members.specs.Minimal.{IncludesByBits, LeastMinimalUnique, MinimalReached};
ghost use Rattle.members.specs.Numbers.{NumberSays};
ghost use Rattle.members.specs.Order.{BeforeOrders};
ghost use Rattle.members.specs.Smallest.{SmallestUnique};

// The number of members is the length of any ascending list of exactly the members, and there is such a list.
pub fn number_is_length_of_list() -> u8
    ensures { NumberSays }
{
    0
}

// There is one ascending list of exactly the members from a code on.
pub fn list_of_members_is_unique() -> u8
    ensures { ListsUnique }
{
    0
}

// It is the list that `listed` makes.
pub fn listed_is_list_of_members() -> u8
    ensures { ListedLists }
{
    0
}

// Of two different codes exactly one comes before the other, none before itself, and it carries through.
pub fn before_is_an_order() -> u8
    ensures { BeforeOrders }
{
    0
}

// Two answers that each come before every other member are equal.
pub fn smallest_is_unique() -> u8
    ensures { SmallestUnique }
{
    0
}

// Inclusion by variable and action is inclusion of bits.
pub fn inclusion_is_by_bits() -> u8
    ensures { IncludesByBits }
{
    0
}

// Two answers that are each the smallest member that includes no other, from a place on, are equal.
pub fn least_minimal_is_unique() -> u8
    ensures { LeastMinimalUnique }
{
    0
}

// Every member includes one that includes no other.
pub fn every_member_includes_a_minimal_one() -> u8
    ensures { MinimalReached }
{
    0
}
