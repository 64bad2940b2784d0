// Sums over a day's invoices: what a firm is let off, what it lets others off, and what is struck out in all.
ghost use Rattle.std.specs.Prelude.{◌≡◌, ℕ, ◌^◌, ◌<◌, ◌≤◌, length, ◌==◌};
ghost use Rattle.day.specs.Bills.{reads, pick, span, let_off, lets_off, total};
ghost use Rattle.setoff.specs.Rows.{day_in, cents_in};

use crate::struck::Struck;

impl Struck<'_> {
    // What is struck out of the invoices at which the firm stands in a row, be it that of who owes or that of who is owed.
    #[tactic(auto, using(crate::proofs::Portions::share_none, crate::proofs::Portions::share_same, crate::proofs::Portions::share_other, crate::proofs::Portions::more_fits))]
    fn share_of(self, row: &[u16], firm: u16) -> u64
        requires { length row.now ≡ length self.cents.now }
        ensures { result ≡ span (λ e. pick (reads row.now e == firm) (cents_in self.entry e) 0) (length row.now) }
    {
        let mut sum = 0;
        // a zip of the two rows takes 1.6 times as long in a loop, and twice as long or more in a chain
        for (e, at) in row.iter().enumerate() {
            if *at == firm {
                sum += self.cents[e];
            }
        }
        sum
    }

    // What the firm is let off, on the invoices that it owes. Two calls and none with a parameter for the side: members have a
    // word for either.
    #[tactic(auto, unfolding(day::specs::Bills::let_off))]
    pub fn let_off(self, firm: u16) -> u64
        ensures { result ≡ let_off (day_in self.entry.invoices) (cents_in self.entry) firm }
    {
        self.share_of(self.invoices.from, firm)
    }

    // What the firm lets others off, on the invoices that are owed to it.
    #[tactic(auto, unfolding(day::specs::Bills::lets_off))]
    pub fn lets_off(self, firm: u16) -> u64
        ensures { result ≡ lets_off (day_in self.entry.invoices) (cents_in self.entry) firm }
    {
        self.share_of(self.invoices.to, firm)
    }

    // What is struck out in all.
    pub fn total(self) -> u64
        ensures { result ≡ total (day_in self.entry.invoices) (cents_in self.entry) }
    {
        sum_of(self.cents)
    }
}

// The sum of a row of few numbers, none of them large.
fn sum_of(row: &[u64]) -> u64
    requires few { length row.now ≤ 4096 }
    requires small { (e : ℕ) → e < length row.now → reads row.now e ≤ 10 ^ 12 }
    ensures { result ≡ span (reads row.now) (length row.now) }
{
    row.iter().sum()
}
