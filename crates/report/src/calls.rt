// The report of a text.
ghost use Rattle.std.specs.Prelude.{length};
ghost use Rattle.report.specs.Answers.{report_number, Reported, Printed, Prints, Called, LaidOut};
ghost use Rattle.report.specs.Printers.{LaysSome};
ghost use Rattle.report.specs.Reports.{ReportOf};
ghost use Rattle.report.specs.Texts.{refusal};

use crate::ReportFault;
use crate::printer::Printer;
use crate::sheets::Sheets;
use model::{Model, read_model};

// The report is laid out twice: first it is only counted, so that nothing is written before it is known to fit.
pub fn report(text: &[u8], store: &mut [u8], out: &mut [u8]) -> Result<usize, ReportFault>
    ensures { Reported text.now (length store.old) out.old result out.new }
{
    let count = lay_out(text, store, &mut []);
    if count > out.len() {
        return Err(ReportFault::OutputTooShort);
    }
    Ok(lay_out(text, store, out))
}

// The bytes that are printed of a text; what stands behind them in the output stays.
pub fn printed(text: &[u8], store: &mut [u8], out: &mut [u8]) -> usize
    ensures { Printed text.now (length store.old) out.old result out.new }
{
    match report(text, store, out) {
        Ok(count) => count,
        Err(fault) => print_refusal(fault, out),
    }
}

// The report with one number for its answer, as a caller in C takes it (crate report_c).
pub fn arcsyn_report(text: &[u8], store: &mut [u8], out: &mut [u8]) -> i64
    ensures { Called text.now (length store.old) out.old result out.new }
{
    match report(text, store, out) {
        Ok(count) => count as i64,
        Err(fault) => -(fault.number() as i64),
    }
}

fn print_refusal(fault: ReportFault, out: &mut [u8]) -> usize
    ensures { Prints (refusal (report_number fault) 0) out.old result out.new }
{
    let room = out.len();
    let mut printer = Printer::new(out);
    printer.put_refusal(fault.number(), 0);
    printer.count().min(room)
}

// How many bytes the report has; as many as the output has room for are written.
fn lay_out(text: &[u8], store: &mut [u8], out: &mut [u8]) -> usize
    ensures { LaidOut (ReportOf text.now (length store.old)) out.old result out.new }
{
    let mut printer = Printer::new(out);
    lay_text(text, store, &mut printer);
    printer.count()
}

fn lay_text(text: &[u8], store: &mut [u8], printer: &mut Printer)
    ensures { LaysSome (ReportOf text.now (length store.old)) printer.old printer.new }
{
    let mut model = Model::BLANK;
    match read_model(text, &mut model) {
        Ok(read) => {
            let from = text.len() - read.rest.len();
            let sheets = Sheets {
                text,
                model: &model,
            };
            sheets.lay(from, store, printer);
        }
        Err(fault) => printer.put_refusal(fault.number(), fault.position()),
    }
}
