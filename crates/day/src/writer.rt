// The writer: a day's file from its number of firms and its invoices. What it writes is read back as it was.
ghost use Rattle.std.specs.Prelude.{◌≡◌, IfOk};
ghost use Rattle.day.specs.File.{written};
ghost use Rattle.day.specs.Promise.{Brings};

use crate::invoices::Invoice;
use crate::layout::{HEAD, STRIDE};
use std::alloc::{AllocError, Global};

// The bytes of a day, whatever its numbers are: the reader says whether they keep the rules.
#[tactic(auto, unfolding(crate::specs::File::written))]
pub fn write(heap: Global, firms: u16, invoices: &[Invoice]) -> Result<Vec<u8>, AllocError>
    ensures bytes { IfOk result (λ v. v.items ≡ written firms invoices.now) }
    ensures back { IfOk result (λ v. Brings firms invoices.now v.items) }
{
    let mut file = Vec::with_capacity(heap, HEAD + STRIDE * invoices.len())?;
    file.extend_from_slice(&firms.to_le_bytes())?;
    for invoice in invoices {
        file.extend_from_slice(&<[u8; STRIDE]>::from(*invoice))?;
    }
    Ok(file)
}
