// The numbers of a profile.
use profile::Shape;

pub fn shape_of(k: usize, s: usize, start: usize, finals: u32) -> Shape {
    Shape {
        k,
        s,
        start,
        finals,
    }
}

// Courses ab, abab and so on: Alt of document 01.
pub fn alt() -> Shape {
    shape_of(2, 2, 0, 1)
}
