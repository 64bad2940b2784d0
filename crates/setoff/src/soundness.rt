// Whether lent rows are a sound day.
ghost use Rattle.std.specs.Prelude.{◌^◌, ◌<◌, ◌≤◌, ◌≢◌, ◌↔◌, IsTrue};
ghost use Rattle.setoff.specs.Sound.{SoundRows};

use day::{Invoice, MOST_CENTS, MOST_FIRMS, MOST_INVOICES};

// Whether there is a firm, and neither too many firms nor too many invoices.
fn fits_limits(firms: u16, invoices: usize) -> bool
    ensures { IsTrue result ↔ ((1 ≤ firms) × (firms ≤ 512) × (invoices ≤ 4096)) }
{
    1 <= firms && firms <= MOST_FIRMS && invoices <= MOST_INVOICES
}

// Whether an invoice is one between two of the firms, of some cents and not of too many.
fn is_sound(firms: u16, invoice: Invoice) -> bool
    ensures { IsTrue result ↔ ((invoice.from < firms) × (invoice.to < firms) × (invoice.from ≢ invoice.to) × (1 ≤ invoice.amount) × (invoice.amount ≤ 10 ^ 12)) }
{
    invoice.from < firms
        && invoice.to < firms
        && invoice.from != invoice.to
        && 1 <= invoice.amount
        && invoice.amount <= MOST_CENTS
}

// Whether the rows have a place for each invoice and keep the limits of a clearing day.
// They come one by one, as a caller lends them; what holds them together is `Invoices`.
pub fn are_sound(firms: u16, from: &[u16], to: &[u16], amount: &[u64]) -> bool
    ensures { IsTrue result ↔ (SoundRows firms from.now to.now amount.now) }
{
    to.len() == from.len()
        && amount.len() == from.len()
        && fits_limits(firms, from.len())
        && from.iter().zip(to).zip(amount).all(|((&from, &to), &amount)| {
            is_sound(firms, Invoice { from, to, amount })
        })
}
