// The invoices of a day in lent rows, sound by their type.
ghost use Rattle.std.specs.Prelude.{◌≡◌, ◌↔◌, IsSome, IfSome};
ghost use Rattle.setoff.specs.Sound.{SoundRows};

use crate::soundness::are_sound;

// Who owes, who is owed and the cents of each invoice, on a day of so many firms.
#[derive(Clone, Copy)]
pub struct Invoices<'a> {
    pub firms: u16,
    pub from: &'a [u16],
    pub to: &'a [u16],
    pub amount: &'a [u64],
    // the rows have a place for each invoice, and the day is within its limits
    ghost sound: { SoundRows firms from.now to.now amount.now },
}

impl<'a> Invoices<'a> {
    // These rows, where they are a sound day. They come one by one, as a caller lends them.
    pub fn new(firms: u16, from: &'a [u16], to: &'a [u16], amount: &'a [u64]) -> Option<Self>
        ensures some { IsSome result ↔ SoundRows firms from.now to.now amount.now }
        ensures rows { IfSome result (λ i. (i.firms ≡ firms) × (i.from.now ≡ from.now) × (i.to.now ≡ to.now) × (i.amount.now ≡ amount.now)) }
    {
        if !are_sound(firms, from, to, amount) {
            return None;
        }
        Some(Invoices {
            firms,
            from,
            to,
            amount,
        })
    }
}
