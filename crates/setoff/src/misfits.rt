// Whether a row of cents can be struck out of a day's invoices, and why a row with a limit to each of its numbers does not fit.
ghost use Rattle.std.specs.Prelude.{Some};
ghost use Rattle.setoff.specs.Strike.{Strikes};
ghost use Rattle.setoff.specs.Rows.{day_in};
ghost use Rattle.setoff.specs.Text.{misfit_text};

use crate::invoices::Invoices;
use std::error::Error;
use std::fmt;

// Why a row of numbers, each with a limit, does not fit.
#[derive(Clone, Copy, PartialEq, Eq, Debug)]
pub enum Misfit {
    // how many numbers it has
    Length(usize),
    // the place of the first one that is above its limit
    Above(usize),
}

// By hand, so that `output` says what is shown.
impl fmt::Display for Misfit {
    ghost output = { λ m. Some (misfit_text m) };

    fn fmt<W: fmt::Write>(&self, f: &mut fmt::Formatter<W>) -> fmt::Result {
        match *self {
            Misfit::Length(len) => {
                write!(f, "the row has {len} numbers, and not one for each limit")
            }
            Misfit::Above(place) => write!(f, "number {place} of the row is above its limit"),
        }
    }
}

impl Error for Misfit {}

// Whether a row of cents has a place for each invoice, and takes from none more than it is. Heights are looked through in the
// same way: one function for both would ask for the limits as a closure and for an order of its numbers, for these few lines.
pub fn within(invoices: Invoices, cents: &[u64]) -> Result<(), Misfit>
    ensures { Strikes (day_in invoices.entry) cents.now result }
{
    if cents.len() != invoices.amount.len() {
        return Err(Misfit::Length(cents.len()));
    }
    match cents
        .iter()
        .zip(invoices.amount)
        .position(|(cents, amount)| cents > amount)
    {
        Some(e) => Err(Misfit::Above(e)),
        None => Ok(()),
    }
}
