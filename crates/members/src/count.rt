// How many members a set has.
ghost use Rattle.std.specs.Prelude.{◌≡◌};
ghost use Rattle.store.specs.Frames.{frame_codes};
ghost use Rattle.store.specs.Calls.{one_set, Answers};
ghost use Rattle.members.specs.Numbers.{number};

use crate::walk::members_of;
use store::calls::Store;
use store::fault::Fault;

pub fn count<S: Store>(store: &S, i: usize) -> Result<usize, Fault>
    ensures { Answers result (one_set (S.frame store.now) i) (λ n. n ≡ number (S.sets store.now i) (frame_codes (S.frame store.now))) }
{
    Ok(members_of(store, i)?.count())
}
