// Why a day is turned away, with the number and the place that members are told.
ghost use Rattle.std.specs.Prelude.{◌≡◌, Some};
ghost use Rattle.day.specs.Rules.{number_of, place_of};
ghost use Rattle.day.specs.Text.{refusal_text};

use std::error::Error;
use std::fmt;

// The kinds of lent memory, in the order in which their room is looked at, with the number that is told of each: its
// discriminant, which a cast reads.
#[derive(Clone, Copy, PartialEq, Eq, Debug)]
pub enum Kind {
    Invoices = 0,
    Numbers = 1,
    Rings = 2,
}

// The rule that a day breaks, with the place where it does.
#[derive(Clone, Copy, PartialEq, Eq, Debug)]
pub enum Refusal {
    // the number of firms is missing, 0 or above 512
    Firms,
    // not twelve bytes for each invoice, or too many invoices; the file's length
    Length(usize),
    // the first invoice with a firm that is not there
    NoFirm(usize),
    // the first invoice of a firm to itself
    ToItself(usize),
    // the first invoice of no cents or of too many
    Amount(usize),
    // too little memory of this kind was lent
    Memory(Kind),
}

impl Refusal {
    // The number of the rule in the list of refusals. A match, since variants that hold a value have no number to cast to.
    pub fn number(self) -> u8
        ensures { result ≡ number_of self }
    {
        match self {
            Refusal::Firms => 1,
            Refusal::Length(_) => 2,
            Refusal::NoFirm(_) => 3,
            Refusal::ToItself(_) => 4,
            Refusal::Amount(_) => 5,
            Refusal::Memory(_) => 9,
        }
    }

    // The place where it is broken: 0, the file's length, an invoice, or a kind of memory.
    pub fn place(self) -> usize
        ensures { result ≡ place_of self }
    {
        match self {
            // it has no place
            Refusal::Firms => 0,
            Refusal::Length(place)
            | Refusal::NoFirm(place)
            | Refusal::ToItself(place)
            | Refusal::Amount(place) => place,
            Refusal::Memory(kind) => kind as usize,
        }
    }
}

// By hand, so that `output` says what is shown.
impl fmt::Display for Refusal {
    ghost output = { λ r. Some (refusal_text r) };

    fn fmt<W: fmt::Write>(&self, f: &mut fmt::Formatter<W>) -> fmt::Result {
        let number = self.number();
        let place = self.place();
        write!(f, "refused {number} at {place}")
    }
}

impl Error for Refusal {}
