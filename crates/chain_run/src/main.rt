//! Loads a thousand configurations that a recurrence draws, with blocks inside one another and chains of branches, asks for the
//! truth of each block on each of 36 requests, and for the value that wins, and holds them against what the documentation says,
//! which is worked out in plain words from the branches as they were drawn (`expected`).
//! Stands on `conf_eval`, `cond_cache`, `request_settings` and `settings`.
#![tactic(auto)]

mod asked;
mod branch;
mod comparing;
mod drawing;
mod draws;
mod expected;

use crate::asked::all_asked;
use crate::comparing::compare;
use crate::drawing::draw_configuration;
use crate::draws::Draws;
use anyhow::Result;

/// How many configurations.
const CONFIGURATIONS: u64 = 1_000;

/// The most branches of one.
const MOST: u64 = 12;

fn main(rt: HostRuntime) -> Result<()> {
    let alloc = rt.alloc();
    let mut draws = Draws::new(CONFIGURATIONS);
    let asked = all_asked(alloc)?;
    let mut truths = 0u64;
    let mut winners = 0u64;
    for number in 0..CONFIGURATIONS {
        let drawn = draw_configuration(alloc, &mut draws, 1 + number % MOST)?;
        let counts = compare(alloc, &drawn, &asked)?;
        truths = truths.saturating_add(counts.truths);
        winners = winners.saturating_add(counts.winners);
    }
    println!(rt;
        "{CONFIGURATIONS} configurations: {truths} truths and {winners} winners are as expected"
    )?;
    Ok(())
}
