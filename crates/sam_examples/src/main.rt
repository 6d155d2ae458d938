//! Three examples: a host, a terminal, and both together. A word names one of them; with no word all are run in order.
#![tactic(auto)]

mod both;
mod host;
mod link;
mod terminal;

use anyhow::{Result, bail};
use std::env;

fn main(rt: HostRuntime) -> Result<()> {
    let words: Vec<String> = env::args(&rt)?.collect(rt.alloc())?;
    let Some(word) = words.as_slice().get(1) else {
        host::run(&rt)?;
        terminal::run(&rt)?;
        return both::run(&rt);
    };
    match word.as_str() {
        "host" => host::run(&rt),
        "terminal" => terminal::run(&rt),
        "both" => both::run(&rt),
        _ => bail!("give one of the words host, terminal and both, or none"),
    }
}
