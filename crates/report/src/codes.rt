// The lines of the codes of a set, ascending.
ghost use Rattle.std.specs.Prelude.{◌<◌, map, MatchResult};
ghost use Rattle.std.specs.List.{flat_map};
ghost use Rattle.store.specs.Frames.{frame_codes};
ghost use Rattle.words.specs.Words.{name_bytes};
ghost use Rattle.report.specs.Listings.{below};
ghost use Rattle.report.specs.Printers.{Lays};
ghost use Rattle.report.specs.Texts.{code_line};

use crate::lines::LineNames;
use crate::printer::Printer;
use members::walk::members_of;
use store::calls::Store;
use store::fault::Fault;

pub(crate) fn put_codes<S: Store>(
    printer: &mut Printer,
    names: &LineNames,
    store: &S,
    set: usize,
) -> Result<(), Fault>
    requires { set < (S.frame store.now).count }
    ensures { MatchResult result (λ _. Lays printer.old (flat_map (code_line (map name_bytes names.now.actions.now) (map name_bytes names.now.variables.now)) (below (S.sets store.now set) (frame_codes (S.frame store.now)))) printer.new) (λ _. ⊥) }
{
    for c in members_of(store, set)? {
        printer.put_line(names, c);
    }
    Ok(())
}
