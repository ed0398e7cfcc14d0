// Works the vectors of the ciphers and of the mode, published ones and others made by an independent program, and
// compares. It prints how many came out as expected, kind by kind, and names each line that did not.
#![tactic(auto)]

mod blocks;
mod messages;
mod piles;
mod tally;

use std::alloc::Global;
use std::fs;
use tally::Tally;

/// Works each line of a file, and notes what comes of it.
fn work_file<F: Fn(Global, &str) -> anyhow::Result<Option<String>>>(
    rt: &HostRuntime,
    tally: &mut Tally,
    name: &str,
    work: F,
) -> anyhow::Result<()>
    requires { F.IsAlwaysCallable work }
{
    let text = fs::read_to_string(rt, name)?;
    for line in text.lines().filter(|line| !line.starts_with('#')) {
        tally.note(rt, line, work(rt.alloc(), line)?)?;
    }
    Ok(())
}

fn run(rt: &HostRuntime) -> anyhow::Result<()> {
    let mut tally = Tally::new(rt.alloc());
    work_file(rt, &mut tally, "ciphers.txt", blocks::work)?;
    work_file(rt, &mut tally, "hbs.txt", messages::work)?;
    tally.report(rt)
}

fn main(rt: HostRuntime) -> anyhow::Result<()> {
    run(&rt)
}
