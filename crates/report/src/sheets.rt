// Formula sheets, each reported over a full store in the caller's memory.
ghost use Rattle.std.specs.Prelude.{◌≡◌, ◌<◌, ◌≤◌, length, IfOk};
ghost use Rattle.words.specs.Faults.{text_limit};
ghost use Rattle.model.specs.Content.{Content};
ghost use Rattle.model.specs.Grammar.{Admissible};
ghost use Rattle.model.specs.Values.{model_of, table_of};
ghost use Rattle.formula.specs.Sheets.{given_action_names, given_property_names};
ghost use Rattle.formula.specs.Wholes.{meaning_of};
ghost use Rattle.report.specs.Formulas.{Evaluates, Small};
ghost use Rattle.report.specs.Laying.{whole_frame, Starts, KeptModel, ReadAt, SheetLaid};
ghost use Rattle.report.specs.Lines.{action_names, variable_names};
ghost use Rattle.report.specs.Printers.{LaysSome};
ghost use Rattle.report.specs.Reports.{SheetsFrom};

use crate::faults::SheetFault;
use crate::formulas::lay_formula;
use crate::printer::Printer;
use evaluate::fault::EvaluateFault;
use formula::{Formula, read_formula};
use full::full::Full;
use model::Model;
use store::shape::Shape;
use words::{Fault, Reader};

// A text, and the model that was read at its front.
#[derive(Clone, Copy)]
pub struct Sheets<'a> {
    pub text: &'a [u8],
    pub model: &'a Model,
    ghost short: { length text.now ≤ text_limit },
}

impl Sheets<'_> {
    // Reports the sheets from `from` on, until only blanks are left or a sheet is refused.
    pub(crate) fn lay(&self, from: usize, store: &mut [u8], printer: &mut Printer)
        requires kept { KeptModel self.now.model.now }
        requires inside { from ≤ length self.now.text.now }
        ensures { (c : Content) → Admissible c → self.now.model.now ≡ model_of c → LaysSome (SheetsFrom self.now.text.now (length store.old) c from) printer.old printer.new }
    {
        let mut at = from;
        while let Some(first) = word_start(self.text, at) {
            match self.lay_sheet(at, store, printer) {
                Ok(next) => at = next,
                Err(SheetFault::Reading(fault)) => {
                    return printer.put_refusal(fault.number(), at + fault.position());
                }
                Err(SheetFault::Evaluation(fault)) => {
                    return printer.put_refusal(fault.number() as usize, first);
                }
            }
        }
    }

    // Reads the sheet that begins at `from`, and reports its formula.
    fn lay_sheet(
        &self,
        from: usize,
        store: &mut [u8],
        printer: &mut Printer,
    ) -> Result<usize, SheetFault>
        requires kept { KeptModel self.now.model.now }
        requires inside { from ≤ length self.now.text.now }
        ensures laid { (c : Content) → Admissible c → self.now.model.now ≡ model_of c → SheetLaid self.now.text.now (length store.old) c from printer.old result printer.new }
        ensures moved { IfOk result (λ next. (from < next) × (next ≤ length self.now.text.now)) }
    {
        let mut formula = Formula::BLANK;
        let next = self.read_sheet(from, &mut formula)?;
        lay_over_full(printer, self.model, &formula, store)?;
        Ok(next)
    }

    // The position behind the sheet; that of a fault is counted from the front of the sheet.
    fn read_sheet(&self, from: usize, formula: &mut Formula) -> Result<usize, Fault>
        requires { from ≤ length self.now.text.now }
        ensures { ReadAt self.now.text.now from (given_action_names self.now.model.now.vocabulary) (given_property_names self.now.model.now.vocabulary) result formula.new }
    {
        let rest = read_formula(&self.text[from..], &self.model.vocabulary, formula)?;
        Ok(self.text.len() - rest.len())
    }
}

// Where the next word begins, if there is one. A match, since a word that is refused begins somewhere too, and only the end of
// the text is no beginning.
fn word_start(text: &[u8], from: usize) -> Option<usize>
    ensures { Starts text.now from result }
{
    let mut reader = Reader { text, at: from };
    match reader.word() {
        Ok(word) => Some(word.start),
        Err(Fault::TextEnds(_)) => None,
        Err(fault) => Some(fault.position()),
    }
}

fn lay_over_full(
    printer: &mut Printer,
    model: &Model,
    formula: &Formula,
    store: &mut [u8],
) -> Result<(), EvaluateFault>
    requires small { Small model.now formula.now }
    requires some { 1 ≤ model.now.vocabulary.actions.count }
    requires few { formula.now.variables.count ≤ 4 }
    ensures { Evaluates (whole_frame (length store.old) model.now.vocabulary.actions.count formula.now.variables.count) (table_of model.now.table) (meaning_of formula.now) (action_names model.now) (variable_names formula.now) printer.old result printer.new }
{
    let shape = Shape::new(model.vocabulary.actions.count, formula.variables())?;
    let mut full = Full::open(shape, store);
    lay_formula(printer, model, formula, &mut full)
}
