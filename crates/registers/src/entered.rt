// What becomes of a key that a register does not turn down.
#[derive(Clone, Copy, Debug, PartialEq, Eq)]
pub enum Entered {
    // it stands at the end of the list
    Added,
    // it was in the list already, with this mark
    Held(u32),
}
