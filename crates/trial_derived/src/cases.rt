// A call: what it is given, and how much it is lent. Arrays are by value, so that a case is changed without a loan.
use rules::Grammar;
use trial::cells::part_of;

#[derive(Clone, Copy)]
pub struct Case {
    pub k: usize,
    pub names: usize,
    pub masks: [u16; 17],
    pub rules: [u16; 65],
    pub log: [u8; 8],
    pub letters: usize,
    pub many: usize,
    pub events: usize,
    pub room: usize,
    pub size: usize,
    pub sets: usize,
}

impl Case {
    pub fn grammar(&self) -> Grammar<'_> {
        Grammar {
            k: self.k,
            masks: self.masks(),
            names: self.names,
            rules: self.rules(),
        }
    }

    pub fn masks(&self) -> &[u16] {
        part_of(&self.masks, 0, self.letters)
    }

    pub fn rules(&self) -> &[u16] {
        part_of(&self.rules, 0, self.many)
    }

    pub fn log(&self) -> &[u8] {
        part_of(&self.log, 0, self.events)
    }
}

pub fn no_case() -> Case {
    Case {
        k: 1,
        names: 1,
        masks: [0; 17],
        rules: [0; 65],
        log: [0; 8],
        letters: 1,
        many: 0,
        events: 0,
        room: 0,
        size: 0,
        sets: 0,
    }
}
