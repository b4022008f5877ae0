// What is asked of a book, and what it answers.
use crate::fault::BookFault;

pub enum Call<S> {
    // ring the form with this number
    Ring(u8),
    // ring the numbers of a source, all or none
    Play(S),
    TakeBack,
    // is it a true touch of this length?
    Verdict(usize),
}

// What a verdict certifies: a true touch of so many rows and leads.
#[derive(Clone, Copy, Debug, PartialEq, Eq)]
pub struct Certificate {
    pub rows: usize,
    pub leads: usize,
}

// What a call gives that is not turned down.
#[derive(Clone, Copy, Debug, PartialEq, Eq)]
pub enum Reply {
    // how many leads stand after a ring or a play
    Stands(usize),
    // the form of the lead that was taken back
    Form(u8),
    // a true touch
    True(Certificate),
}

// What a book answers to a call.
pub type Answer = Result<Reply, BookFault>;
