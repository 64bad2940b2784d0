// Theorems about set-offs, for days of any size, each as the contract of a function: without its proof the crate is refused.
ghost use Rattle.setoff.specs.Promise.{PositionKept, Apart};

// A set-off keeps each firm's position: what it owes in all, less what it is owed in all.
#[tactic(auto, using(crate::proofs::Positions::position_kept))]
fn positions_are_kept()
    ensures { PositionKept }
{}

// Where invoices fall apart into two sorts without a common firm, a greatest set-off is greatest for either sort.
#[tactic(auto, using(crate::proofs::Sorts::apart))]
fn sorts_clear_apart()
    ensures { Apart }
{}
