// The report for a caller in C: a slice is a pointer and a length (include/arcsyn.h).
#![tactic(auto)]

ghost use Rattle.std.specs.Prelude.{length};
ghost use Rattle.report.specs.Answers.{Called};

#[unsafe(no_mangle)]
pub extern "C" fn arcsyn_report(text: &[u8], store: &mut [u8], out: &mut [u8]) -> i64
    ensures { Called text.now (length store.old) out.old result out.new }
{
    report::arcsyn_report(text, store, out)
}
