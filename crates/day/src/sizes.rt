// How large a day is, and how much memory is lent for it.
ghost use Rattle.std.specs.Prelude.{Some};
ghost use Rattle.day.specs.Text.{size_text};

use std::fmt;

// The most firms and invoices of a day.
pub const MOST_FIRMS: u16 = 512;

pub const MOST_INVOICES: usize = 4096;

// How many firms and invoices a day has.
#[derive(Clone, Copy, PartialEq, Eq, Debug)]
pub struct Size {
    pub firms: u16,
    pub invoices: usize,
}

// How many places are lent of each kind; of several slices the shortest counts.
#[derive(Clone, Copy, PartialEq, Eq, Debug)]
pub struct Room {
    pub invoices: usize,
    pub numbers: usize,
    pub rings: usize,
}

// By hand, so that `output` says what is shown.
impl fmt::Display for Size {
    ghost output = { λ s. Some (size_text s) };

    fn fmt<W: fmt::Write>(&self, f: &mut fmt::Formatter<W>) -> fmt::Result {
        let Size { firms, invoices } = *self;
        write!(f, "{firms} firms, {invoices} invoices")
    }
}
