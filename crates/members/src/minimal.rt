// The members of a set that include no other member.
ghost use Rattle.std.specs.Prelude.{Decides};
ghost use Rattle.store.specs.Calls.{one_set, set_and_start, Answers};
ghost use Rattle.members.specs.Minimal.{IncludesNoOther, LeastMinimal};

use crate::inclusion::includes;
use crate::walk::{members_from, members_of};
use store::calls::Store;
use store::fault::Fault;

pub fn least<S: Store>(store: &S, i: usize, from: usize) -> Result<Option<usize>, Fault>
    ensures { Answers result (set_and_start (S.frame store.now) i from) (LeastMinimal (S.frame store.now).actions (S.frame store.now).variables (S.sets store.now i) from) }
{
    for c in members_from(store, i, from)? {
        if includes_no_other(store, i, c)? {
            return Ok(Some(c));
        }
    }
    Ok(None)
}

// Only a lower code can be another that c includes.
fn includes_no_other<S: Store>(store: &S, i: usize, c: usize) -> Result<bool, Fault>
    ensures { Answers result (one_set (S.frame store.now) i) (λ b. Decides b (IncludesNoOther (S.frame store.now).actions (S.frame store.now).variables (S.sets store.now i) c)) }
{
    Ok(
        members_of(store, i)?
            .take_while(|d| *d < c)
            .all(|d| !includes(c, d)),
    )
}
