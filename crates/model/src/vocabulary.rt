// What a formula is read against.

use words::{Name, NameList};

// The names of actions and properties, under the numbers by which they were given.
#[derive(Clone, Copy)]
pub struct Vocabulary {
    pub actions: NameList<12>,
    pub properties: NameList<16>,
}

impl Vocabulary {
    // Written out, since the value of a constant names no constant of a generic type.
    pub const BLANK: Vocabulary = Vocabulary {
        actions: NameList {
            names: [Name::BLANK; 12],
            count: 0,
        },
        properties: NameList {
            names: [Name::BLANK; 16],
            count: 0,
        },
    };
}
