// The bound of heights: no set-off is above it.
ghost use Rattle.std.specs.Prelude.{◌≡◌, ◌+◌, ◌-◌, ◌<◌, length};
ghost use Rattle.day.specs.Bills.{reads};
ghost use Rattle.setoff.specs.Rows.{day_in};
ghost use Rattle.heights.specs.Rows.{Answers};
ghost use Rattle.heights.specs.Told.{counted, Bounds};

use crate::low::Heights;
use setoff::{Invoices, Misfit};

// How many times an invoice counts: as much as the height of who owes it, and one, are above the height of who is owed.
fn times(from: u16, to: u16) -> u64
    ensures { result ≡ (from + 1) - to }
{
    (u64::from(from) + 1).saturating_sub(u64::from(to))
}

impl Heights<'_, '_> {
    // What an invoice counts for.
    fn counted(self, e: usize) -> u64
        requires { e < length self.invoices.from.now }
        ensures { result ≡ counted (day_in self.entry.invoices) (reads self.entry.of_firm.now) e }
    {
        let invoices = self.invoices;
        invoices.amount[e] * times(self.of(invoices.from[e]), self.of(invoices.to[e]))
    }

    // Adds up the invoices, of which there are few enough to stay below 2^63.
    // It goes by their numbers, since a zip of the three rows takes a fifth longer.
    fn add_up(self) -> u64
        ensures { Bounds (day_in self.entry.invoices) (reads self.entry.of_firm.now) result }
    {
        (0..self.invoices.from.len()).map(|e| self.counted(e)).sum()
    }
}

// The bound of one height for each firm, none of them above the number of firms.
pub fn bound(invoices: Invoices, heights: &[u16]) -> Result<u64, Misfit>
    ensures { Answers invoices.entry.firms heights.now (Bounds (day_in invoices.entry) (reads heights.now)) result }
{
    let heights = Heights::new(invoices, heights)?;
    Ok(heights.add_up())
}
