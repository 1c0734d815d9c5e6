// The member of a set with the fewest ones, of ties the lowest.
ghost use Rattle.store.specs.Calls.{one_set, Answers};
ghost use Rattle.members.specs.Smallest.{Smallest};

use crate::order::rank;
use crate::walk::members_of;
use store::calls::Store;
use store::fault::Fault;

pub fn smallest<S: Store>(store: &S, i: usize) -> Result<Option<usize>, Fault>
    ensures { Answers result (one_set (S.frame store.now) i) (Smallest (S.sets store.now i)) }
{
    Ok(members_of(store, i)?.min_by_key(|c| rank(*c)))
}
