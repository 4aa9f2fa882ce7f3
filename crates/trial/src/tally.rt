// How much was compared, and what was wrong: counters, so that a test that shrinks or fails shows in what is printed.
use std::io;

// A counter has a place among the cells; those of one program have different ones.
pub trait Counter: Copy {
    fn place(self) -> usize;
}

// Counters, in the order in which they are printed.
#[derive(Clone, Copy)]
pub enum Counted {
    Logs,
    Accepted,
    Reachable,
    Tables,
    Records,
    FullTables,
    Pairs,
    SamePairs,
    FirstOrders,
    MovedFirstOrders,
    Written,
    Read,
    Told,
    Events,
    Ends,
    Edges,
    Combined,
    // Wrong comparisons.
    Judge,
    Table,
    Same,
    First,
    Refusal,
    File,
    Event,
    Edge,
    // Logs under masks that are not symmetric, and pairs of logs of which only one is reachable from the other.
    OneWayLogs,
    OneWayPairs,
}

impl Counter for Counted {
    fn place(self) -> usize {
        self as usize
    }
}

// The calls whose refusals are counted by their numbers.
#[derive(Clone, Copy)]
pub enum Call {
    Judge,
    Build,
    Same,
    First,
    Read,
    Part,
    Write,
}

// Refusals of a call by a number that came as expected: eleven counters for each call.
#[derive(Clone, Copy)]
pub struct RefusedBy(pub Call, pub usize);

impl Counter for RefusedBy {
    // Past all cells where there is no such number.
    fn place(self) -> usize {
        if self.1 < 11 {
            32 + 11 * (self.0 as usize) + self.1
        } else {
            128
        }
    }
}

#[derive(Drop)]
pub struct Tally {
    cells: [u64; 128],
}

impl Tally {
    pub fn new() -> Self {
        Tally { cells: [0; 128] }
    }

    pub fn of(&self, which: impl Counter) -> u64 {
        self.cells.get(which.place()).copied().unwrap_or(0)
    }

    // Adds to a counter.
    pub fn count_many(&mut self, which: impl Counter, many: usize) {
        if let Some(cell) = self.cells.get_mut(which.place()) {
            *cell = cell.wrapping_add(many as u64);
        }
    }

    pub fn count(&mut self, which: impl Counter) {
        self.count_many(which, 1);
    }

    pub fn count_if(&mut self, which: impl Counter, yes: bool) {
        if yes {
            self.count(which);
        }
    }

    // Counts one thing, or another where it is not so.
    pub fn count_either(&mut self, yes: bool, which: impl Counter, other: impl Counter) {
        if yes {
            self.count(which);
        } else {
            self.count(other);
        }
    }

    // Counts a wrong comparison of the group.
    pub fn expect(&mut self, group: impl Counter, right: bool) {
        self.count_if(group, !right);
    }

    // Counts an edge.
    pub fn edge(&mut self, right: bool) {
        self.expect(Counted::Edge, right);
        self.count(Counted::Edges);
    }

    // Counts the refusal of a call by a number, if one was expected and came, or a wrong comparison of the group.
    pub fn refused(&mut self, group: impl Counter, right: bool, call: Call, number: Option<usize>) {
        self.expect(group, right);
        if let Some(n) = number {
            self.count_if(RefusedBy(call, n), right);
        }
    }

    // Counts an edge, and the refusal by the number, if one was expected.
    pub fn refused_edge(&mut self, right: bool, call: Call, number: Option<usize>) {
        self.count(Counted::Edges);
        self.refused(Counted::Edge, right, call, number);
    }

    // Prints the refusals of every call, number by number.
    pub fn say_refusals(&self, rt: &impl Print) -> io::Result<()> {
        for n in 1..11 {
            println!(rt;
                "refusal {n}: judge {}, build {}, same {}, first order {}, read {}, log part {}, write {}",
                self.of(RefusedBy(Call::Judge, n)),
                self.of(RefusedBy(Call::Build, n)),
                self.of(RefusedBy(Call::Same, n)),
                self.of(RefusedBy(Call::First, n)),
                self.of(RefusedBy(Call::Read, n)),
                self.of(RefusedBy(Call::Part, n)),
                self.of(RefusedBy(Call::Write, n))
            )?;
        }
        Ok(())
    }
}
