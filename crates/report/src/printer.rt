// Bytes of a report: all of them are counted, and those for which the output has room are written.
ghost use Rattle.std.specs.Prelude.{◌≡◌, [], ◌∷◌, decimal};
ghost use Rattle.report.specs.Printers.{Lays};

// Where a report does not fit, its answer speaks of the whole report: so the count goes on to the end, and no call fails.
// Lines are methods and no `write!`, which promises nothing of a text that it does not write whole.
#[derive(Drop)]
pub struct Printer<'a> {
    out: &'a mut [u8],
    count: usize,
}

impl<'a> Printer<'a> {
    pub(crate) fn new(out: &'a mut [u8]) -> Printer<'a>
        ensures count { result.count ≡ 0 }
        ensures output { result.out.now ≡ out.old }
        ensures lent { result.out.ghost_name ≡ out.entry.ghost_name }
    {
        Printer { out, count: 0 }
    }

    // How many bytes there are so far.
    pub(crate) fn count(&self) -> usize
        ensures { result ≡ self.now.count }
    {
        self.count
    }

    #[tactic(auto, using(std::proofs::lemmas::List::set_past))]
    pub(crate) fn put(&mut self, byte: u8)
        ensures { Lays self.old (byte ∷ []) self.new }
    {
        if self.count < self.out.len() {
            self.out[self.count] = byte;
        }
        self.count = self.count.saturating_add(1);
    }

    pub(crate) fn put_bytes(&mut self, bytes: &[u8])
        ensures { Lays self.old bytes.now self.new }
    {
        for byte in bytes {
            self.put(*byte);
        }
    }

    // The number in decimal: its last digit stands behind the digits of the rest. By hand, so that the digits are proved here.
    pub(crate) fn put_number(&mut self, n: usize)
        ensures { Lays self.old (decimal n) self.new }
    {
        if n < 10 {
            return self.put(b'0' + n as u8);
        }
        self.put_number(n / 10);
        self.put(b'0' + (n % 10) as u8);
    }
}
