// A cell of the rank table: what is kept for one code.
#[derive(Clone, Copy)]
pub struct Cell {
    pub mark: u32,
    pub link: Link,
}

// Whether the code of a cell is entered, and after which code.
#[derive(Clone, Copy)]
pub enum Link {
    // it is not entered
    Free,
    // it is the first entry
    First,
    // it was entered next after this code
    After(u32),
}

// The last entry, and how many there are with it.
#[derive(Clone, Copy)]
pub struct Last {
    pub(crate) code: u32,
    pub(crate) cell: Cell,
    pub(crate) count: usize,
}
