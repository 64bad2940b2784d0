// The theorems of the clearing day, for days of any size, each as the contract of a function: without its proof the crate is refused.
ghost use Rattle.heights.specs.Promise.{Always, AlwaysFrom, SearchEnds, RingGains, HeightsBound, MeetsIsGreatest, Slackness, NoRingLeft, Raise};
ghost use Rattle.heights.specs.Worked.{WorkedDays};

// No set-off is above the bound of any heights.
#[tactic(auto, using(crate::proofs::Days::heights_bound))]
fn heights_bound()
    ensures { HeightsBound }
{}

// A set-off that meets the bound of some heights is a greatest one.
#[tactic(auto, using(crate::proofs::Days::meets_is_greatest))]
fn meeting_is_greatest()
    ensures { MeetsIsGreatest }
{}

// A set-off meets the bound of heights exactly where they fit it.
#[tactic(auto, using(crate::proofs::Days::slackness))]
fn meeting_is_fitting()
    ensures { Slackness }
{}

// After a greatest set-off no ring of invoices is left.
#[tactic(auto, using(crate::proofs::Days::no_ring_left))]
fn no_ring_is_left()
    ensures { NoRingLeft }
{}

// More on one invoice never lowers the greatest total, and raises it for each cent by at most the number of firms.
#[tactic(auto, using(crate::proofs::Days::raise))]
fn raising_an_invoice()
    ensures { Raise }
{}

// Every day has a greatest set-off, with least heights that show it.
#[tactic(auto, using(crate::proofs::Days::always))]
fn every_day_is_shown()
    ensures { Always }
{}

// So has every network, whichever of its arcs count, from any circulation on.
#[tactic(auto, using(crate::proofs::Existence::always_from))]
fn every_network_is_certified()
    ensures { AlwaysFrom }
{}

// A search for rings ends with one that gains, or with numbers that are potentials.
#[tactic(auto, using(crate::proofs::Rounds::search_ends))]
fn a_search_ends()
    ensures { SearchEnds }
{}

// Cents pushed round a ring that gains make a circulation that gains more.
#[tactic(auto, using(crate::proofs::Pushing::ring_gains))]
fn a_ring_gains()
    ensures { RingGains }
{}

// The worked days have the totals and heights that are told of them.
#[tactic(auto, using(crate::proofs::Examples::worked_days))]
fn worked_days_hold()
    ensures { WorkedDays }
{}
