// A clearing day: its invoices, how they are read from a file, and what turns a day away.
#![tactic(auto)]

mod checks;
mod invoices;
mod layout;
mod reader;
mod refusals;
mod sizes;
mod writer;

pub use invoices::{Invoice, MOST_CENTS};
pub use layout::whole_invoices;
pub use reader::read;
pub use refusals::{Kind, Refusal};
pub use sizes::{MOST_FIRMS, MOST_INVOICES, Room, Size};
pub use writer::write;
