// A bench has a model and a store; what is judged stands in the store's sets.
ghost use Rattle.std.specs.Prelude.{◌≡◌, None};
ghost use Rattle.formula.specs.Wholes.{Meaning};
ghost use Rattle.bench.specs.Ledger.{Entry, Says, rounds_as, holds_as, next_as, count_as, smallest_as, least_as};
ghost use Rattle.bench.specs.Matching.{bench_table, state_set, Backs, Matches, ByLedger, Left};

use crate::call::Call;
use crate::fault::Fault;
use evaluate::evaluate;
use formula::Formula;
use members::count::count;
use members::minimal::least;
use members::smallest::smallest;
use model::Model;
use store::calls::Store;

const UNIVERSE_SET: usize = 0;

// The ledger's entry is no field: the answers are the ledger's at every entry that a bench matches, not at one alone.
#[derive(Drop)]
pub struct Bench<'a, S: Store> {
    model: &'a Model,
    store: S,
    // whether there is an entry; its value is the ledger's alone
    judged: bool,
}

impl<'a, S: Store> Bench<'a, S> {
    // Nothing is judged yet, whatever the sets of the store hold.
    pub fn open(model: &'a Model, store: S) -> Bench<'a, S>
        ensures blank { Matches S.frame S.sets result None }
        ensures model { result.model.now ≡ model.now }
        ensures store { result.store ≡ store }
    {
        Bench {
            model,
            store,
            judged: false,
        }
    }

    pub fn into_store(self) -> S
        ensures { result ≡ self.entry.store }
    {
        self.store
    }

    pub fn judge(&mut self, formula: &Formula) -> Result<usize, Fault>
        ensures says { (e : Entry) → Says (bench_table self.old) (S.frame self.old.store) e (Call.Judge formula.entry) (rounds_as result) }
        ensures left { Left S.frame S.sets self.old self.new (Call.Judge formula.entry) }
    {
        let model = self.model;
        let rounds = evaluate(&model.table, formula, &mut self.store)?;
        self.judged = true;
        Ok(rounds)
    }

    pub fn holds(&self, state: usize, code: usize) -> Result<bool, Fault>
        ensures { ByLedger S.frame S.sets self.now (Call.Holds state code) (holds_as result) }
    {
        let set = self.set_of(state)?;
        if !self.in_universe(code) {
            return Err(Fault::NotInUniverse);
        }
        self.store.has(set, code).map_err(|_| Fault::TooFewSets)
    }

    pub fn next(&self, state: usize, from: usize) -> Result<Option<usize>, Fault>
        ensures { ByLedger S.frame S.sets self.now (Call.Next state from) (next_as result) }
    {
        let set = self.set_of(state)?;
        self.store.next(set, from).map_err(|_| Fault::PlaceTooHigh)
    }

    pub fn count(&self, state: usize) -> Result<usize, Fault>
        ensures { ByLedger S.frame S.sets self.now (Call.Count state) (count_as result) }
    {
        let set = self.set_of(state)?;
        count(&self.store, set).map_err(|_| Fault::TooFewSets)
    }

    pub fn smallest(&self, state: usize) -> Result<Option<usize>, Fault>
        ensures { ByLedger S.frame S.sets self.now (Call.Smallest state) (smallest_as result) }
    {
        let set = self.set_of(state)?;
        smallest(&self.store, set).map_err(|_| Fault::TooFewSets)
    }

    pub fn least(&self, state: usize, from: usize) -> Result<Option<usize>, Fault>
        ensures { ByLedger S.frame S.sets self.now (Call.Least state from) (least_as result) }
    {
        let set = self.set_of(state)?;
        least(&self.store, set, from).map_err(|_| Fault::PlaceTooHigh)
    }

    // The set that has what is listed at the state.
    fn set_of(&self, state: usize) -> Result<usize, Fault>
        ensures { result ≡ state_set self.now state }
    {
        if !self.judged {
            return Err(Fault::NothingJudged);
        }
        let states = self.model.table.state_count();
        if state >= states {
            return Err(Fault::NoSuchState);
        }
        Ok(1 + 6 * states + state)
    }

    // A judgement leaves one set filled with the universe.
    fn in_universe(&self, code: usize) -> bool
        ensures { (a : Meaning) → Backs S.frame S.sets self.now a → result ≡ (S.frame self.now.store).universe code }
    {
        self.store.has(UNIVERSE_SET, code).unwrap_or(false)
    }
}
