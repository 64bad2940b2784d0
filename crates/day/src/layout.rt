// How a day's file is laid out: numbers with the low byte first, n in two bytes and twelve bytes for each invoice.
ghost use Rattle.std.specs.Prelude.{◌≡◌, map, length};
ghost use Rattle.day.specs.File.{invoice_of, invoices_in, invoice_bytes, whole, Fits};

use crate::invoices::Invoice;

// The bytes of the number of firms, and of an invoice.
pub(crate) const HEAD: usize = 2;

pub(crate) const STRIDE: usize = 12;

// An invoice and its bytes, both ways: who owes, who is owed, the cents.
// Each byte has a name: the checker doesn't cover a pattern for a part of an array, as `cents @ ..`.
impl From<[u8; STRIDE]> for Invoice {
    ghost from_gives = { λ bytes i. i ≡ invoice_of bytes };

    fn from(bytes: [u8; STRIDE]) -> Invoice {
        let [f0, f1, t0, t1, a0, a1, a2, a3, a4, a5, a6, a7] = bytes;
        Invoice {
            from: u16::from_le_bytes([f0, f1]),
            to: u16::from_le_bytes([t0, t1]),
            amount: u64::from_le_bytes([a0, a1, a2, a3, a4, a5, a6, a7]),
        }
    }
}

impl From<Invoice> for [u8; STRIDE] {
    ghost from_gives = { λ i bytes. (bytes ≡ invoice_bytes i) × Fits i };

    fn from(invoice: Invoice) -> [u8; STRIDE] {
        let [f0, f1] = invoice.from.to_le_bytes();
        let [t0, t1] = invoice.to.to_le_bytes();
        let [a0, a1, a2, a3, a4, a5, a6, a7] = invoice.amount.to_le_bytes();
        [f0, f1, t0, t1, a0, a1, a2, a3, a4, a5, a6, a7]
    }
}

// The bytes of each invoice that the file has whole.
pub(crate) fn records(file: &[u8]) -> &[[u8; STRIDE]]
    ensures invoices { map invoice_of result.now ≡ invoices_in file.now }
    ensures len { length result.now ≡ whole file.now }
{
    let Some((_, rest)) = file.split_first_chunk::<HEAD>() else {
        return &[];
    };
    let (records, _) = rest.as_chunks::<STRIDE>();
    records
}

// How many invoices a file of this length has whole: so many places a caller lends in each row for invoices.
pub fn whole_invoices(file: &[u8]) -> usize
    ensures { result ≡ whole file.now }
{
    records(file).len()
}
