// An invoice, and the three rules that each invoice of a day keeps.
ghost use Rattle.std.specs.Prelude.{◌≡◌};
ghost use Rattle.day.specs.Rules.{breaks, refusal_by};

use crate::refusals::Refusal;

// So many cents that one firm owes to another. Firms are numbered from 0.
#[derive(Clone, Copy, PartialEq, Eq, Debug)]
pub struct Invoice {
    pub from: u16,
    pub to: u16,
    pub amount: u64,
}

// The most that an invoice may be of, in cents.
pub const MOST_CENTS: u64 = 1_000_000_000_000;

// What every invoice keeps, in the order in which the rules are looked at.
// An enum and not a closure for each: one name stands for a rule's test, its refusal and what is promised of it.
#[derive(Clone, Copy, PartialEq, Eq, Debug)]
pub(crate) enum Rule {
    FirmsThere,
    TwoFirms,
    AmountInRange,
}

impl Rule {
    // Whether the invoice breaks the rule on a day of so many firms.
    pub(crate) fn is_broken(self, firms: u16, invoice: Invoice) -> bool
        ensures { result ≡ breaks self firms invoice }
    {
        match self {
            Rule::FirmsThere => invoice.from >= firms || invoice.to >= firms,
            Rule::TwoFirms => invoice.from == invoice.to,
            Rule::AmountInRange => !matches!(invoice.amount, 1..=MOST_CENTS),
        }
    }

    // The refusal of a day whose invoice at this place breaks the rule.
    pub(crate) fn refusal(self, place: usize) -> Refusal
        ensures { result ≡ refusal_by self place }
    {
        match self {
            Rule::FirmsThere => Refusal::NoFirm(place),
            Rule::TwoFirms => Refusal::ToItself(place),
            Rule::AmountInRange => Refusal::Amount(place),
        }
    }
}
