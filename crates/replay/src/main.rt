// Replays the corpus: order files, each with the lines that the second implementation wrote for it.
#![tactic(auto)]

mod replaying;
mod telling;

use replaying::{replay_dial, replay_packet};
use std::env;
use telling::Tally;

fn main(rt: HostRuntime) -> anyhow::Result<()> {
    run(&rt)
}

// The arguments are the names of the files. Each is run as the program runs it, and one that was made for a packet board there too.
fn run(rt: &HostRuntime) -> anyhow::Result<()> {
    let mut tally = Tally::default();
    for name in env::args(rt)?.skip(1) {
        tally.one_file();
        tally.one_run(rt, name.as_str(), replay_dial(rt, name.as_str())?)?;
        if let Some(slots) = name.strip_prefix("packet_") {
            let slots = slots.parse::<usize>()?;
            tally.one_run(rt, name.as_str(), replay_packet(rt, name.as_str(), slots)?)?;
        }
    }
    tally.tell(rt)
}
