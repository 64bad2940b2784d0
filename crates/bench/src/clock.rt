// The shortest of many runs.
use anyhow::{Result, ensure};
use day::{MOST_FIRMS, MOST_INVOICES};
use std::time::{Duration, Instant};

const RUNS: usize = 1000;

// Tells what the shortest of the runs takes. A run fails by itself where what it finds is wrong.
pub(crate) fn time<F: FnMut() -> Result<()>>(rt: &HostRuntime, what: &str, mut run: F) -> Result<()>
    requires { F.IsAlwaysCallable run }
{
    let mut shortest = Duration::MAX;
    for _ in 0..RUNS {
        let start = Instant::now(rt)?;
        let found = run();
        shortest = shortest.min(start.elapsed(rt)?);
        found?;
    }
    let nanos = shortest.as_nanos();
    eprintln!(rt;
        "{what} {MOST_FIRMS} firms, {MOST_INVOICES} invoices: {nanos} ns, the shortest of {RUNS} runs"
    )?;
    // each thing that is timed has to take well under this
    ensure!(shortest < Duration::from_millis(1), "it takes too long");
    Ok(())
}
