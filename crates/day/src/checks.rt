// The checks of a day's file, in the order of the rules: each hands its value on, if it has one, or the day is refused.
ghost use Rattle.std.specs.Prelude.{◌≡◌, map, position, if◌then◌else◌, Some, None, nat_lt};
ghost use Rattle.std.specs.Bool.{then_some};
ghost use Rattle.day.specs.declared.refusals.Refusal.TheVariants.{Memory};
ghost use Rattle.day.specs.File.{firms_in, whole, invoice_of};
ghost use Rattle.day.specs.Rules.{breaks};
ghost use Rattle.day.specs.Reading.{bad_firms, bad_length, by_room, by_rule, by_rules, refusal_in, answered, size_in};

use crate::invoices::{Invoice, Rule};
use crate::layout::{HEAD, STRIDE, records, whole_invoices};
use crate::refusals::{Kind, Refusal};
use crate::sizes::{MOST_FIRMS, MOST_INVOICES, Room, Size};

// The number of firms, if there is one within the limits.
fn firms_of(file: &[u8]) -> Option<u16>
    ensures { result ≡ (if bad_firms file.now then None else Some (firms_in file.now)) }
{
    let firms = u16::from_le_bytes(*file.first_chunk::<HEAD>()?);
    matches!(firms, 1..=MOST_FIRMS).then_some(firms)
}

// The number of invoices, if the file has twelve bytes for each and they are not too many.
fn invoices_of(file: &[u8]) -> Option<usize>
    ensures { result ≡ (if bad_length file.now then None else Some (whole file.now)) }
{
    let invoices = whole_invoices(file);
    let kept = file.len() == HEAD + STRIDE * invoices && invoices <= MOST_INVOICES;
    kept.then_some(invoices)
}

// Whether as many places of this kind are lent as are needed.
fn enough(kind: Kind, lent: usize, needed: usize) -> Result<(), Refusal>
    ensures { result ≡ answered (then_some (nat_lt lent needed) (Memory kind)) tt }
{
    if lent < needed {
        Err(Refusal::Memory(kind))
    } else {
        Ok(())
    }
}

// Whether enough memory of each kind is lent for so many firms and invoices.
fn lent(room: Room, firms: u16, invoices: usize) -> Result<(), Refusal>
    ensures { result ≡ answered (by_room room firms invoices) tt }
{
    let firms = usize::from(firms);
    enough(Kind::Invoices, room.invoices, invoices)?;
    enough(Kind::Numbers, room.numbers, firms)?;
    enough(Kind::Rings, room.rings, firms + 2)
}

// The place of the first invoice that breaks the rule. Firms and records are two parameters here and below: a struct of both
// would be made in one place and only taken apart in the others.
fn first_broken(rule: Rule, firms: u16, records: &[[u8; STRIDE]]) -> Option<usize>
    ensures { result ≡ position (breaks rule firms) (map invoice_of records.now) }
{
    let mut invoices = records.iter().copied().map(Invoice::from);
    invoices.position(|invoice| rule.is_broken(firms, invoice))
}

// Whether each invoice keeps the rule.
fn each_keeps(rule: Rule, firms: u16, records: &[[u8; STRIDE]]) -> Result<(), Refusal>
    ensures { result ≡ answered (by_rule rule firms (map invoice_of records.now)) tt }
{
    match first_broken(rule, firms, records) {
        Some(e) => Err(rule.refusal(e)),
        None => Ok(()),
    }
}

// Whether each invoice keeps all three rules; a rule is looked for in all invoices before the next one. Three calls and no loop
// over the rules: their order is read here.
fn rules_kept(firms: u16, records: &[[u8; STRIDE]]) -> Result<(), Refusal>
    ensures { result ≡ answered (by_rules firms (map invoice_of records.now)) tt }
{
    each_keeps(Rule::FirmsThere, firms, records)?;
    each_keeps(Rule::TwoFirms, firms, records)?;
    each_keeps(Rule::AmountInRange, firms, records)
}

// How large the day is that a file writes, or the first refusal that applies with so much room. A check that has a value hands
// it on by `let .. else`, with its refusal beside it.
#[tactic(auto, unfolding(crate::specs::Reading::refusal_in))]
pub(crate) fn check(file: &[u8], room: Room) -> Result<Size, Refusal>
    ensures { result ≡ answered (refusal_in room file.now) (size_in file.now) }
{
    let Some(firms) = firms_of(file) else {
        return Err(Refusal::Firms);
    };
    lent(room, firms, whole_invoices(file))?;
    let Some(invoices) = invoices_of(file) else {
        return Err(Refusal::Length(file.len()));
    };
    rules_kept(firms, records(file))?;
    Ok(Size { firms, invoices })
}
