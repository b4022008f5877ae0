// Why a book is not opened, and why it turns a call down.
ghost use Rattle.books.specs.Causes.{opening_cause, ring_cause, play_cause, take_back_cause, verdict_cause, book_cause};
ghost use Rattle.books.specs.declared.fault.BookFault.TheVariants.{Ring, Play, TakeBack, Verdict};
ghost use Rattle.books.specs.declared.fault.RingFault.TheVariants.{Register};
ghost use Rattle.std.specs.Prelude.{◌≡◌};

use causes::{Cause, Refusal};
use registers::fault::RegisterFault;
use thiserror::Error;

// Why a lead is turned down.
#[derive(Clone, Copy, Debug, PartialEq, Eq, Error)]
pub enum RingFault {
    // the number is not one of a form in the list
    #[error("no form has this number")]
    Form,
    // as many leads stand as the limit allows
    #[error("the lead limit is reached")]
    Limit,
    // a row is already in the book: the place that it would take, and the place where it stands
    #[error("a row is already in the book")]
    Again { new: usize, old: usize },
    // the register was not left to the book
    #[error(transparent)]
    Register(RegisterFault),
}

// Why a play is turned down: its first lead that is, counted from 0, and why.
#[derive(Clone, Copy, Debug, PartialEq, Eq, Error)]
#[error("{fault}")]
pub struct PlayFault {
    pub lead: usize,
    pub fault: RingFault,
}

#[derive(Clone, Copy, Debug, PartialEq, Eq, Error)]
pub enum TakeBackFault {
    #[error("there is no lead to take back")]
    Leads,
}

#[derive(Clone, Copy, Debug, PartialEq, Eq, Error)]
pub enum VerdictFault {
    #[error("no lead stands")]
    Leads,
    #[error("the next head is not rounds")]
    Head,
    // the length is this one, and not the one claimed
    #[error("the length is not the one claimed")]
    Length(usize),
}

#[derive(Clone, Copy, Debug, PartialEq, Eq, Error)]
pub enum BookFault {
    #[error(transparent)]
    Ring(RingFault),
    #[error(transparent)]
    Play(PlayFault),
    #[error(transparent)]
    TakeBack(TakeBackFault),
    #[error(transparent)]
    Verdict(VerdictFault),
}

#[derive(Clone, Copy, Debug, PartialEq, Eq, Error)]
pub enum OpeningFault {
    #[error("the lead limit is not 1 to 1280")]
    Limit,
    #[error("the register has entries")]
    Held,
    #[error("the reach or the capacity of the register is too small")]
    Small,
    #[error("there is no memory for so many leads")]
    Memory,
}

impl Refusal for RingFault {
    ghost caused = { ring_cause };

    fn cause(&self) -> Cause {
        match *self {
            RingFault::Form => Cause::plain(16),
            RingFault::Limit => Cause::plain(17),
            RingFault::Again { new, old } => Cause::two(18, new, old),
            RingFault::Register(fault) => fault.cause(),
        }
    }
}

// The cause of a play is that of its lead; which lead it was is no value of the cause.
impl Refusal for PlayFault {
    ghost caused = { play_cause };

    fn cause(&self) -> Cause {
        self.fault.cause()
    }
}

impl Refusal for TakeBackFault {
    ghost caused = { take_back_cause };

    fn cause(&self) -> Cause {
        match self {
            TakeBackFault::Leads => Cause::plain(19),
        }
    }
}

impl Refusal for VerdictFault {
    ghost caused = { verdict_cause };

    fn cause(&self) -> Cause {
        match *self {
            VerdictFault::Leads => Cause::plain(20),
            VerdictFault::Head => Cause::plain(21),
            VerdictFault::Length(rows) => Cause::one(22, rows),
        }
    }
}

impl Refusal for BookFault {
    ghost caused = { book_cause };

    fn cause(&self) -> Cause {
        match self {
            BookFault::Ring(fault) => fault.cause(),
            BookFault::Play(fault) => fault.cause(),
            BookFault::TakeBack(fault) => fault.cause(),
            BookFault::Verdict(fault) => fault.cause(),
        }
    }
}

// A want of memory is no refusal of the call, and no cause has its number: 0.
impl Refusal for OpeningFault {
    ghost caused = { opening_cause };

    fn cause(&self) -> Cause {
        match self {
            OpeningFault::Limit => Cause::plain(13),
            OpeningFault::Held => Cause::plain(14),
            OpeningFault::Small => Cause::plain(15),
            OpeningFault::Memory => Cause::plain(0),
        }
    }
}

// These are written out, and not derived, since what `?` makes of a fault is part of the contracts.
impl From<RegisterFault> for RingFault {
    ghost from_gives = { λ e r. r ≡ Register e };

    fn from(fault: RegisterFault) -> RingFault {
        RingFault::Register(fault)
    }
}

impl From<RingFault> for BookFault {
    ghost from_gives = { λ e r. r ≡ Ring e };

    fn from(fault: RingFault) -> BookFault {
        BookFault::Ring(fault)
    }
}

impl From<PlayFault> for BookFault {
    ghost from_gives = { λ e r. r ≡ Play e };

    fn from(fault: PlayFault) -> BookFault {
        BookFault::Play(fault)
    }
}

impl From<TakeBackFault> for BookFault {
    ghost from_gives = { λ e r. r ≡ TakeBack e };

    fn from(fault: TakeBackFault) -> BookFault {
        BookFault::TakeBack(fault)
    }
}

impl From<VerdictFault> for BookFault {
    ghost from_gives = { λ e r. r ≡ Verdict e };

    fn from(fault: VerdictFault) -> BookFault {
        BookFault::Verdict(fault)
    }
}
