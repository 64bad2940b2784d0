// What is struck out of each invoice of a day, in a lent row, within the invoice by its type.
ghost use Rattle.std.specs.Prelude.{◌≡◌, ℕ, ◌<◌, ◌≤◌, length, MatchResult};
ghost use Rattle.day.specs.Bills.{reads};
ghost use Rattle.setoff.specs.Strike.{Misfits};

use crate::invoices::Invoices;
use crate::misfits::{Misfit, within};

// The invoices, and the cents that are struck out of each of them.
#[derive(Clone, Copy)]
pub struct Struck<'a> {
    pub invoices: Invoices<'a>,
    pub cents: &'a [u64],
    // the row has a place for each invoice
    ghost cents_each: { length cents.now ≡ length invoices.from.now },
    // no invoice is struck out by more than it is
    ghost within: { (e : ℕ) → e < length invoices.from.now → reads cents.now e ≤ reads invoices.amount.now e },
}

impl<'a> Struck<'a> {
    // These cents, where they fit the invoices, and else why they do not.
    pub fn new(invoices: Invoices<'a>, cents: &'a [u64]) -> Result<Self, Misfit>
        ensures { MatchResult result
            (λ s. (s.invoices ≡ invoices.entry) × (s.cents.now ≡ cents.now))
            (λ m. Misfits (length invoices.entry.from.now) (reads invoices.entry.amount.now) cents.now m) }
    {
        within(invoices, cents)?;
        Ok(Struck { invoices, cents })
    }
}
