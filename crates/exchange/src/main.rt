// Checks an order file: reads it from the standard input and prints each order, and then how the file ended.
#![tactic(auto)]

mod input;

use input::whole_input;
use order_reader::read_orders;
use order_text::{ending_line, order_line};

fn main(rt: HostRuntime) -> anyhow::Result<()> {
    run(&rt)
}

fn run(rt: &HostRuntime) -> anyhow::Result<()> {
    let Some(bytes) = whole_input(rt.alloc(), rt.stdin())? else {
        rt.println("long")?;
        return Ok(());
    };
    check(rt, bytes.as_slice())
}

fn check(rt: &HostRuntime, bytes: &[u8]) -> anyhow::Result<()> {
    let heap = rt.alloc();
    let listing = read_orders(heap, bytes)?;
    for order in listing.orders.iter() {
        rt.println(order_line(heap, order)?)?;
    }
    rt.println(ending_line(heap, listing.place, listing.ending)?)?;
    Ok(())
}

#[cfg(test)]
mod tests;
