// What it takes to add up a day: whether its rows are sound, whether all firms are even, the bound, and whether heights fit.
use crate::clock::time;
use anyhow::{Context, Result, ensure};
use setoff::{Invoices, Struck, are_sound};

// Calls that stop at the first fault find none: nothing is struck out where firms are to be even, and everything where heights,
// which are all 0, are to fit. Their bound is all that is owed.
pub(crate) fn time_sums<'a>(
    rt: &HostRuntime,
    invoices: Invoices<'a>,
    nothing: &'a [u64],
    heights: &[u16],
) -> Result<()> {
    time(rt, "sound", || {
        let sound = are_sound(invoices.firms, invoices.from, invoices.to, invoices.amount);
        ensure!(sound, "the rows are not sound");
        Ok(())
    })?;
    let too_much = "more is struck out than there is";
    let untouched = Struck::new(invoices, nothing).context(too_much)?;
    let cleared = Struck::new(invoices, invoices.amount).context(too_much)?;
    let owed = cleared.total();
    time(rt, "even", || {
        ensure!(untouched.first_uneven().is_none(), "a firm is not even");
        Ok(())
    })?;
    time(rt, "bound", || {
        let bound = heights::bound(invoices, heights).context("the heights are turned away")?;
        ensure!(bound == owed, "the bound is another one");
        Ok(())
    })?;
    time(rt, "fit", || {
        let fit = heights::fit(cleared, heights);
        ensure!(fit == Ok(true), "the heights don't fit");
        Ok(())
    })
}
