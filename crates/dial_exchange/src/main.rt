// Runs an order file: reads it from the standard input and prints the lines that tell the board's answers.
#![tactic(auto)]

use dial_run::printed;
use order_reader::read_input;

fn main(rt: HostRuntime) -> anyhow::Result<()> {
    run(&rt)
}

fn run(rt: &HostRuntime) -> anyhow::Result<()> {
    let input = read_input(rt.alloc(), rt.stdin())?;
    rt.print(printed(rt.alloc(), input.as_slice())?)?;
    Ok(())
}
