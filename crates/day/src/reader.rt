// The reader: from a file's bytes into lent slices, or the first refusal that applies.
ghost use Rattle.std.specs.Prelude.{◌≡◌, IfOk};
ghost use Rattle.day.specs.Bills.{Sound, reads};
ghost use Rattle.day.specs.File.{firms_in, whole, invoices_in, debtors, creditors, amounts};
ghost use Rattle.day.specs.Promise.{Refuses, Takes};
ghost use Rattle.day.specs.Reading.{refusal_in, answered, size_in, row_read, row_after, room_with, Writable};

use crate::checks::check;
use crate::invoices::Invoice;
use crate::layout::records;
use crate::refusals::Refusal;
use crate::sizes::{Room, Size};

// The answer to a file, with these rows and so much room besides.
fn judge(file: &[u8], from: &[u16], to: &[u16], amount: &[u64], room: Room) -> Result<Size, Refusal>
    ensures answer { result ≡ answered (refusal_in (room_with room from.now to.now amount.now) file.now) (size_in file.now) }
    ensures refused { Refuses (room_with room from.now to.now amount.now) file.now result }
    ensures taken { IfOk result (λ s. (s ≡ size_in file.now) × Writable file.now from.now to.now amount.now) }
{
    let room = Room {
        invoices: room
            .invoices
            .min(from.len())
            .min(to.len())
            .min(amount.len()),
        ..room
    };
    check(file, room)
}

// Writes the file's invoices into the first places of three rows, by index: of what goes through `iter_mut` the proof
// doesn't know what is in a row after.
fn fill(file: &[u8], from: &mut [u16], to: &mut [u16], amount: &mut [u64])
    requires { Writable file.now from.old to.old amount.old }
    ensures from { from.new ≡ row_read (debtors (invoices_in file.now)) from.old }
    ensures to { to.new ≡ row_read (creditors (invoices_in file.now)) to.old }
    ensures amount { amount.new ≡ row_read (amounts (invoices_in file.now)) amount.old }
    ensures sound { Sound (firms_in file.now) (whole file.now) (reads from.new) (reads to.new) (reads amount.new) }
{
    let records = records(file);
    for (e, bytes) in records.iter().enumerate() {
        let invoice = Invoice::from(*bytes);
        from[e] = invoice.from;
        to[e] = invoice.to;
        amount[e] = invoice.amount;
    }
}

// Reads a day into the first places of three lent rows. Of the other lent memory only its room is looked at:
// `room` counts the places in the invoices' other rows, in the firms' rows, and for rings.
// The rows are plain slices and no struct, here and in the parts above, so that a caller in C can lend each by itself.
pub fn read(
    file: &[u8],
    from: &mut [u16],
    to: &mut [u16],
    amount: &mut [u64],
    room: Room,
) -> Result<Size, Refusal>
    ensures answer { result ≡ answered (refusal_in (room_with room from.old to.old amount.old) file.now) (size_in file.now) }
    ensures refused { Refuses (room_with room from.old to.old amount.old) file.now result }
    ensures taken { Takes result from.new to.new amount.new }
    ensures from { from.new ≡ row_after result (debtors (invoices_in file.now)) from.old }
    ensures to { to.new ≡ row_after result (creditors (invoices_in file.now)) to.old }
    ensures amount { amount.new ≡ row_after result (amounts (invoices_in file.now)) amount.old }
{
    let size = judge(file, from, to, amount, room)?;
    fill(file, from, to, amount);
    Ok(size)
}
