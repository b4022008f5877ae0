// A lead that stands in a book: the number of its form, and its head.
use rows::row::Row;

#[derive(Clone, Copy)]
pub struct Lead {
    pub form: u8,
    pub head: Row,
}
