// Buffers of which a part is lent to a tested call, with guards before and behind it, so that a write outside of it is seen.
use crate::cells::part_of;

// A type of the numbers that are lent to a call.
pub trait Cell: Copy + PartialEq {
    // A value that no tested call writes: letters lie below 16, and no profile here has these states or letters.
    const GUARD: Self;
    // Guards before the lent part.
    const MARGIN: usize;
}

impl Cell for u8 {
    const GUARD: u8 = 165;

    const MARGIN: usize = 4;
}

impl Cell for u16 {
    const GUARD: u16 = 42405;

    const MARGIN: usize = 8;
}

impl Cell for u32 {
    const GUARD: u32 = 2779096485;

    const MARGIN: usize = 8;
}

// The lent part has `size` elements.
#[derive(Clone, Copy, PartialEq, Eq)]
pub struct Guarded<T, const N: usize> {
    cells: [T; N],
    size: usize,
}

impl<T: Cell, const N: usize> Guarded<T, N> {
    pub fn new(size: usize) -> Self {
        Guarded {
            cells: [T::GUARD; N],
            size,
        }
    }

    pub fn size(&self) -> usize {
        self.size
    }

    // The part to be lent; none where the buffer is too small for it.
    pub fn lend(&mut self) -> Option<&mut [T]> {
        let size = self.size;
        let cells = &mut self.cells;
        let whole = &mut cells[..];
        whole.get_mut(T::MARGIN..)?.get_mut(..size)
    }

    // What stands from the lent part's start on.
    pub fn content(&self) -> &[T] {
        self.cells.get(T::MARGIN..).unwrap_or(&[])
    }

    // The first n elements of the lent part.
    pub fn first(&self, n: usize) -> &[T] {
        part_of(&self.cells, T::MARGIN, n)
    }

    // Nothing is written but the first n elements of the lent part.
    pub fn stays_behind(&self, n: usize) -> bool {
        self.cells
            .iter()
            .enumerate()
            .all(|(i, x)| *x == T::GUARD || inside(i, T::MARGIN, n))
    }

    // Nothing is written.
    pub fn stays(&self) -> bool {
        self.stays_behind(0)
    }

    // These elements are written at the lent part's start, and nothing else.
    pub fn holds(&self, elements: &[T]) -> bool {
        let n = elements.len();
        self.stays_behind(n) & (self.first(n) == elements)
    }
}

// The place stands in the n elements from `from` on.
fn inside(i: usize, from: usize, n: usize) -> bool {
    from <= i && i - from < n
}
