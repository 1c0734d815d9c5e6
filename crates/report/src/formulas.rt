// The report of a formula over any store.
ghost use Rattle.std.specs.Prelude.{◌≡◌, ◌<◌, ◌≤◌, map, length, MatchResult};
ghost use Rattle.store.specs.Frames.{frame_codes};
ghost use Rattle.words.specs.Words.{name_bytes};
ghost use Rattle.model.specs.Values.{table_of};
ghost use Rattle.formula.specs.Wholes.{meaning_of};
ghost use Rattle.evaluate.specs.Layout.{universe_set, result_set};
ghost use Rattle.report.specs.Formulas.{Evaluates, Small};
ghost use Rattle.report.specs.Lines.{action_names, variable_names};
ghost use Rattle.report.specs.Listings.{below};
ghost use Rattle.report.specs.Printers.{Lays};
ghost use Rattle.report.specs.Texts.{report_text};

use crate::codes::put_codes;
use crate::lines::LineNames;
use crate::printer::Printer;
use evaluate::evaluate;
use evaluate::fault::EvaluateFault;
use formula::Formula;
use members::count::count;
use model::Model;
use store::calls::Store;
use store::fault::Fault;

// The set that has the universe behind an evaluation.
const UNIVERSE_SET: usize = 0;

pub(crate) fn lay_formula<S: Store>(
    printer: &mut Printer,
    model: &Model,
    formula: &Formula,
    store: &mut S,
) -> Result<(), EvaluateFault>
    requires { Small model.now formula.now }
    ensures { Evaluates (S.frame store.old) (table_of model.now.table) (meaning_of formula.now) (action_names model.now) (variable_names formula.now) printer.old result printer.new }
{
    let rounds = evaluate(&model.table, formula, store)?;
    let names = LineNames {
        actions: model.vocabulary.actions.as_slice(),
        variables: formula.variable_names(),
    };
    let set = first_result(model.table.states);
    put_report(printer, &names, set, rounds, store)?;
    Ok(())
}

// The set that has the result for the first state behind an evaluation: the rows of results begin behind the universe and six
// rows of scratch.
fn first_result(states: usize) -> usize
    requires { states ≤ 64 }
    ensures { result ≡ result_set states 0 }
{
    1 + 6 * states
}

// The codes of the set are listed, and those of the universe are counted.
fn put_report<S: Store>(
    printer: &mut Printer,
    names: &LineNames,
    set: usize,
    rounds: usize,
    store: &S,
) -> Result<(), Fault>
    requires { set < (S.frame store.now).count }
    ensures { MatchResult result (λ _. Lays printer.old (report_text (map name_bytes names.now.actions.now) (map name_bytes names.now.variables.now) (below (S.sets store.now set) (frame_codes (S.frame store.now))) (length (below (S.sets store.now universe_set) (frame_codes (S.frame store.now)))) rounds) printer.new) (λ _. ⊥) }
{
    let held = count(store, set)?;
    let all = count(store, UNIVERSE_SET)?;
    printer.put_heading(held, all, rounds);
    put_codes(printer, names, store, set)
}
