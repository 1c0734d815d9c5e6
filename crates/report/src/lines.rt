// The line of a code.
ghost use Rattle.std.specs.Prelude.{◌+◌, ◌*◌, ◌≤◌, ◌++◌, map, length};
ghost use Rattle.logic.specs.Codes.{bit};
ghost use Rattle.words.specs.Words.{name_bytes};
ghost use Rattle.report.specs.Lines.{spaced, passing, braced, given_texts, line, line_end};
ghost use Rattle.report.specs.Printers.{Lays};

use crate::printer::Printer;
use words::Name;

// The names that lines are written in: those of the actions, and those of the variables.
#[derive(Clone, Copy)]
pub struct LineNames<'a> {
    pub actions: &'a [Name],
    pub variables: &'a [Name],
    ghost few: { length actions.now * length variables.now ≤ 64 },
}

impl Printer<'_> {
    // What the code gives each variable, and the end of the line.
    pub(crate) fn put_line(&mut self, names: &LineNames, code: usize)
        ensures { Lays self.old (line (map name_bytes names.now.actions.now) (map name_bytes names.now.variables.now) code ++ line_end) self.new }
    {
        if names.variables.is_empty() {
            self.put(b'-');
        } else {
            self.put_variables(names, code);
        }
        self.put(b'\n');
    }

    // The bits of a variable begin where those of the one before end.
    fn put_variables(&mut self, names: &LineNames, code: usize)
        ensures { Lays self.old (spaced (given_texts (map name_bytes names.now.actions.now) (map name_bytes names.now.variables.now) code (length names.now.variables.now))) self.new }
    {
        let actions = names.actions;
        let mut gap: &[u8] = b"";
        for (y, name) in names.variables.iter().enumerate() {
            self.put_bytes(gap);
            self.put_variable(actions, name, code, y * actions.len());
            gap = b" ";
        }
    }

    fn put_variable(&mut self, actions: &[Name], name: &Name, code: usize, position: usize)
        requires { position + length actions.now ≤ 64 }
        ensures { Lays self.old (braced (name_bytes name.now) (passing (λ a. bit code (position + a)) (map name_bytes actions.now) (length actions.now))) self.new }
    {
        self.put_bytes(name.as_bytes());
        self.put_bytes(b"={");
        self.put_actions(actions, code, position);
        self.put(b'}');
    }

    // The names of the actions whose bits the code has, from the bit `position` on.
    fn put_actions(&mut self, actions: &[Name], code: usize, position: usize)
        requires { position + length actions.now ≤ 64 }
        ensures { Lays self.old (spaced (passing (λ a. bit code (position + a)) (map name_bytes actions.now) (length actions.now))) self.new }
    {
        let mut gap: &[u8] = b"";
        for (a, name) in actions.iter().enumerate() {
            if (code >> (position + a)) % 2 == 1 {
                self.put_bytes(gap);
                self.put_bytes(name.as_bytes());
                gap = b" ";
            }
        }
    }
}
