//! Measures what crates of tdb do: hashes, locks, dump text, a commit, and commands of openers. The first argument
//! names one of these, and the second is how much is done; then the times are printed too. Without an argument each is
//! done in short.
#![tactic(auto)]

mod commits;
mod dump;
mod locks;
mod words;
mod world;

use anyhow::{Context, bail};
use std::env;

fn main(rt: HostRuntime) -> anyhow::Result<()> {
    let name = env::args(&rt)?.nth(1);
    let asked = match env::args(&rt)?.nth(2) {
        Some(count) => Some(
            count
                .parse::<u32>()
                .context("the second argument is no number")?,
        ),
        None => None,
    };
    match name.as_ref().map(|name| name.as_str()) {
        Some("words") => words::measure(rt, asked),
        Some("locks") => locks::measure(rt, asked),
        Some("dump") => dump::measure(rt, asked),
        Some("commits") => commits::measure(rt),
        Some("world") => world::measure(rt, asked),
        Some(_) => bail!("the first argument is words, locks, dump, commits or world"),
        None => {
            words::measure(rt, None)?;
            locks::measure(rt, None)?;
            dump::measure(rt, None)?;
            commits::measure(rt)?;
            world::measure(rt, None)
        }
    }
}
