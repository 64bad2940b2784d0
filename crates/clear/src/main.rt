// The program `clear`: reads a day's file and says that it is taken, or the number and the place for which it is turned away.
#![tactic(auto)]

ghost use Rattle.std.specs.Prelude.{◌≡◌, IfOk, Err, ◌≢◌};
ghost use Rattle.day.specs.declared.refusals.Kind.{Kind};
ghost use Rattle.day.specs.declared.refusals.Refusal.TheVariants.{Memory};
ghost use Rattle.day.specs.Reading.{refusal_in, answered, size_in};
ghost use Rattle.clear.specs.Lent.{ample};

mod input;
mod trouble;

use day::{MOST_FIRMS, Refusal, Room, Size};
use std::alloc::{AllocError, Global};
use std::io;
use std::process::ExitCode;
use trouble::Trouble;

// Reads the day with memory enough that no day is refused for want of it.
fn judge(heap: Global, file: &[u8]) -> Result<Result<Size, Refusal>, AllocError>
    ensures answer { IfOk result (λ a. a ≡ answered (refusal_in (ample file.now) file.now) (size_in file.now)) }
    ensures enough { IfOk result (λ a. (k : Kind) → a ≢ Err (Memory k)) }
{
    let invoices = day::whole_invoices(file);
    let firms = usize::from(MOST_FIRMS);
    let mut from = vec![in heap; 0u16; invoices]?;
    let mut to = vec![in heap; 0u16; invoices]?;
    let mut amount = vec![in heap; 0u64; invoices]?;
    // for just this file's invoices, so that it is no constant
    let room = Room {
        invoices,
        numbers: firms,
        rings: firms + 2,
    };
    Ok(day::read(file, &mut from, &mut to, &mut amount, room))
}

// Prints the answer, and gives the status that goes with it.
fn tell(rt: &HostRuntime, answer: Result<Size, Refusal>) -> io::Result<ExitCode> {
    match answer {
        Ok(size) => {
            println!(rt; "taken: {size}")?;
            Ok(ExitCode::SUCCESS)
        }
        Err(refusal) => {
            println!(rt; "{refusal}")?;
            Ok(ExitCode::FAILURE)
        }
    }
}

// Answers what the arguments ask; of an answer that can't be written the status alone tells.
fn run(rt: &HostRuntime) -> Result<ExitCode, Trouble> {
    let file = input::read(rt)?;
    let answer = judge(rt.alloc(), &file)?;
    Ok(tell(rt, answer).unwrap_or(ExitCode::FAILURE))
}

fn main(rt: HostRuntime) -> ExitCode {
    run(&rt).unwrap_or_else(|trouble| {
        let _ = eprintln!(rt; "{trouble}");
        ExitCode::FAILURE
    })
}
