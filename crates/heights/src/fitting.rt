// Whether heights fit what is struck out. Where they do and every firm is even, nobody could strike out more.
ghost use Rattle.std.specs.Prelude.{◌≡◌, ◌<◌, length, Decides};
ghost use Rattle.day.specs.Bills.{reads};
ghost use Rattle.setoff.specs.Rows.{day_in, cents_in};
ghost use Rattle.heights.specs.Rows.{Answers};
ghost use Rattle.heights.specs.Told.{FitsAt, Judges};

use crate::low::Heights;
use setoff::{Misfit, Struck};

impl Heights<'_, '_> {
    // Whether an invoice leads up by one at least where something is left of it, and by one at most where something is struck out.
    fn fits_at(self, cents: &[u64], e: usize) -> bool
        requires { (length cents.now ≡ length self.invoices.from.now) × (e < length self.invoices.from.now) }
        ensures { Decides result (FitsAt (day_in self.entry.invoices) (reads cents.now) (reads self.entry.of_firm.now) e) }
    {
        let invoices = self.invoices;
        let from = self.of(invoices.from[e]);
        let to = self.of(invoices.to[e]);
        (cents[e] >= invoices.amount[e] || from < to)
            && (cents[e] == 0 || u32::from(to) <= u32::from(from) + 1)
    }

    // Whether each invoice is such a one. It goes by their numbers, since a zip of the four rows takes more than twice as long.
    fn fits_each(self, cents: &[u64]) -> bool
        requires { length cents.now ≡ length self.invoices.from.now }
        ensures { Judges (day_in self.entry.invoices) (reads cents.now) (reads self.entry.of_firm.now) result }
    {
        (0..cents.len()).all(|e| self.fits_at(cents, e))
    }
}

// Whether heights, one for each firm and none above the number of firms, fit what is struck out.
pub fn fit(struck: Struck, heights: &[u16]) -> Result<bool, Misfit>
    ensures { Answers struck.entry.invoices.firms heights.now (Judges (day_in struck.entry.invoices) (cents_in struck.entry) (reads heights.now)) result }
{
    let heights = Heights::new(struck.invoices, heights)?;
    Ok(heights.fits_each(struck.cents))
}
