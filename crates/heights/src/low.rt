// Heights of a day's firms in a lent row, low by their type.
ghost use Rattle.std.specs.Prelude.{◌≡◌, ◌<◌};
ghost use Rattle.std.specs.Result.{MatchResult};
ghost use Rattle.day.specs.Bills.{reads};
ghost use Rattle.setoff.specs.Strike.{Misfits};
ghost use Rattle.heights.specs.Rows.{Low};

use setoff::{Invoices, Misfit};

// A height for each firm of the day, none of them above the number of firms.
#[derive(Clone, Copy)]
pub(crate) struct Heights<'d, 'h> {
    pub(crate) invoices: Invoices<'d>,
    of_firm: &'h [u16],
    ghost low: { Low invoices.firms of_firm.now },
}

impl<'d, 'h> Heights<'d, 'h> {
    // A row as the heights of the day's firms, or why it is turned away. `setoff::within` looks through cents in the same way,
    // and says why they are two.
    pub(crate) fn new(invoices: Invoices<'d>, of_firm: &'h [u16]) -> Result<Self, Misfit>
        ensures { MatchResult result
            (λ h. (h.invoices ≡ invoices.entry) × (h.of_firm.now ≡ of_firm.now))
            (λ m. Misfits invoices.entry.firms (λ _. invoices.entry.firms) of_firm.now m) }
    {
        let firms = invoices.firms;
        if of_firm.len() != usize::from(firms) {
            return Err(Misfit::Length(of_firm.len()));
        }
        match of_firm.iter().position(|height| *height > firms) {
            Some(v) => Err(Misfit::Above(v)),
            None => Ok(Heights { invoices, of_firm }),
        }
    }

    // The height of a firm.
    pub(crate) fn of(self, firm: u16) -> u16
        requires { firm < self.invoices.firms }
        ensures { result ≡ reads self.entry.of_firm.now firm }
    {
        self.of_firm[usize::from(firm)]
    }
}
