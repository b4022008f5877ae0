// What a refusal says: the number of its cause, and the values that go with it.
#![tactic(auto)]

ghost use Rattle.causes.specs.Shown.{cause_shown};
ghost use Rattle.causes.specs.declared.Cause.{Cause};
ghost use Rattle.causes.specs.declared.Values.TheVariants.{None as NoValue, One, Two};
ghost use Rattle.std.specs.Prelude.{◌≡◌, Some};

use std::fmt;

#[derive(Clone, Copy, Debug, PartialEq, Eq)]
pub enum Values {
    None,
    One(usize),
    Two(usize, usize),
}

#[derive(Clone, Copy, Debug, PartialEq, Eq)]
pub struct Cause {
    pub number: u8,
    pub values: Values,
}

impl Cause {
    // A cause with no value.
    pub fn plain(number: u8) -> Cause
        ensures { result ≡ record { number = number; values = NoValue } }
    {
        let values = Values::None;
        Cause { number, values }
    }

    // A cause with one value.
    pub fn one(number: u8, value: usize) -> Cause
        ensures { result ≡ record { number = number; values = One value } }
    {
        let values = Values::One(value);
        Cause { number, values }
    }

    // A cause with two values.
    pub fn two(number: u8, first: usize, second: usize) -> Cause
        ensures { result ≡ record { number = number; values = Two first second } }
    {
        let values = Values::Two(first, second);
        Cause { number, values }
    }
}

// What was not taken, handed back as it came, and why.
#[derive(Drop)]
pub struct Returned<T, F> {
    pub value: T,
    pub fault: F,
}

// Each kind of refusal has one definition that gives its cause; what is promised of a refusal, and what is printed of it, goes through that.
pub trait Refusal {
    ghost caused: { Self → Cause };

    fn cause(&self) -> Cause
        ensures { result ≡ caused self.now };
}

impl fmt::Display for Cause {
    ghost output = { λ c. Some (cause_shown c) };

    fn fmt<W: fmt::Write>(&self, f: &mut fmt::Formatter<W>) -> fmt::Result {
        let number = self.number;
        match self.values {
            Values::None => write!(f, "cause {number}"),
            Values::One(a) => write!(f, "cause {number} {a}"),
            Values::Two(a, b) => write!(f, "cause {number} {a} {b}"),
        }
    }
}
