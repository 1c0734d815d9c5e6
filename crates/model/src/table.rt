// The table of a model: its labels and arcs by number.
ghost use Rattle.std.specs.Prelude.{◌≡◌, take};
ghost use Rattle.model.specs.Values.{table_of};

// One transition: from a state, by an action, to a state.
#[derive(Clone, Copy, Debug, PartialEq)]
pub struct Arc {
    pub from: usize,
    pub action: usize,
    pub to: usize,
}

impl Arc {
    pub const BLANK: Arc = Arc {
        from: 0,
        action: 0,
        to: 0,
    };
}

// A row of `labels` has a cell for each property. The counts stand beside their arrays: no heap stands below the program, and
// any value is answered.
#[derive(Clone, Copy)]
pub struct Table {
    pub states: usize,
    pub actions: usize,
    pub properties: usize,
    pub labels: [[bool; 16]; 64],
    pub arcs: [Arc; 512],
    pub arc_count: usize,
}

impl Table {
    pub const BLANK: Table = Table {
        states: 0,
        actions: 0,
        properties: 0,
        labels: [[false; 16]; 64],
        arcs: [Arc::BLANK; 512],
        arc_count: 0,
    };

    // How many states it has: no more than it has rows of labels.
    pub fn state_count(&self) -> usize
        ensures { result ≡ (table_of self.now).states }
    {
        self.states.min(64)
    }

    // How many actions it has: no more than a sheet names.
    pub fn action_count(&self) -> usize
        ensures { result ≡ (table_of self.now).actions }
    {
        self.actions.min(12)
    }

    // How many properties it has: no more than a row of labels has cells.
    pub fn property_count(&self) -> usize
        ensures { result ≡ (table_of self.now).properties }
    {
        self.properties.min(16)
    }

    // The arcs up to their count, those that stay inside the table and those that do not.
    pub fn arcs(&self) -> &[Arc]
        ensures { result.now ≡ take self.now.arc_count self.now.arcs }
    {
        let count = self.arc_count.min(self.arcs.len());
        &self.arcs[..count]
    }
}
