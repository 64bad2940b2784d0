// Set-offs over a day's invoices: what each firm is let off and lets off, the total, and whether all firms are even.
#![tactic(auto)]

mod evenness;
mod invoices;
mod misfits;
mod soundness;
mod struck;
mod sums;
mod theorems;

pub use invoices::Invoices;
pub use misfits::{Misfit, within};
pub use soundness::are_sound;
pub use struck::Struck;
