// The lines of a report that stand around those of codes.
ghost use Rattle.std.specs.Prelude.{◌++◌, decimal};
ghost use Rattle.report.specs.Printers.{Lays};
ghost use Rattle.report.specs.Texts.{heading, refusal};

use crate::printer::Printer;

impl Printer<'_> {
    pub(crate) fn put_heading(&mut self, held: usize, all: usize, rounds: usize)
        ensures { Lays self.old (heading held all rounds) self.new }
    {
        self.put_count(b"held ", held);
        self.put_count(b" of ", all);
        self.put_count(b" rounds ", rounds);
        self.put(b'\n');
    }

    pub(crate) fn put_refusal(&mut self, number: usize, at: usize)
        ensures { Lays self.old (refusal number at) self.new }
    {
        self.put_count(b"refused ", number);
        self.put_count(b" at ", at);
        self.put(b'\n');
    }

    // A number behind a word.
    fn put_count(&mut self, word: &[u8], n: usize)
        ensures { Lays self.old (word.now ++ decimal n) self.new }
    {
        self.put_bytes(word);
        self.put_number(n);
    }
}
