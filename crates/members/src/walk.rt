// The members of one set of any store, one after another, ascending.
ghost use Rattle.std.specs.Prelude.{◌≡◌};
ghost use Rattle.std.specs.Iterator.{YieldsFirst, item_count};
ghost use Rattle.store.specs.Calls.{one_set, set_and_start, Answers};
ghost use Rattle.members.specs.Numbers.{Lists};
ghost use Rattle.members.specs.Listed.{ListsFrom};

use std::marker::Model;
use store::calls::Store;
use store::fault::Fault;

// Seen as the list of the members that are left.
#[derive(Drop)]
pub struct Members<'a, S: Store> {
    store: &'a S,
    set: usize,
    from: usize,
}

impl<'a, S: Store> Model for Members<'a, S> {
    ghost use Rattle.std.specs.Prelude.{ℕ, ◌-◌, ◌<◌, ◌≤◌, List};
    ghost use Rattle.store.specs.Frames.{frame_codes};
    ghost use Rattle.members.specs.Listed.{listed};

    ghost Value = { List ℕ };

    ghost view = { λ s. listed (S.sets s.store.now s.set) s.from (frame_codes (S.frame s.store.now) - s.from) };

    ghost invariant = { λ s. (s.set < (S.frame s.store.now).count) × (s.from ≤ frame_codes (S.frame s.store.now)) };
}

impl<'a, S: Store> Iterator for Members<'a, S> {
    type Item = usize;

    ghost next_gives = { YieldsFirst (λ rest. rest) };

    ghost remaining = { item_count (λ rest. rest) };

    // The store refuses neither: there is such a set, and the place is not above the codes.
    fn next(&mut self) -> Option<usize> {
        let c = self.store.next(self.set, self.from).unwrap_or(None)?;
        self.from = c + 1;
        Some(c)
    }
}

// Every member.
pub fn members_of<S: Store>(store: &S, i: usize) -> Result<Members<'_, S>, Fault>
    ensures { Answers result (one_set (S.frame store.now) i) (Lists (S.sets store.now i)) }
{
    members_from(store, i, 0)
}

// The members from a code on.
pub fn members_from<S: Store>(store: &S, i: usize, from: usize) -> Result<Members<'_, S>, Fault>
    ensures { Answers result (set_and_start (S.frame store.now) i from) (ListsFrom (S.sets store.now i) from) }
{
    if i >= store.set_count() {
        return Err(Fault::NoSuchSet);
    }
    if from > 1 << (store.actions() * store.variables()) {
        return Err(Fault::CodeTooHigh);
    }
    Ok(Members {
        store,
        set: i,
        from,
    })
}
