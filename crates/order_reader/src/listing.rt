// A whole file, read to its end.
ghost use Rattle.std.specs.Prelude.{◌≡◌, IfOk};
ghost use Rattle.order_reader.specs.File.{Reads, cut_of};

use crate::reader::Reader;
use orders::Order;
use rules::Refusal;
use std::alloc::{AllocError, Global};

// The orders in the file's own order, the place where reading ended, and why: nothing is left, or the order there is refused.
#[derive(Drop)]
pub struct Listing<'a> {
    pub orders: Vec<Order<'a>>,
    pub place: usize,
    pub ending: Result<(), Refusal>,
}

pub fn read_orders<'a>(heap: Global, input: &'a [u8]) -> Result<Listing<'a>, AllocError>
    ensures { IfOk result (λ listing. Reads input.now (cut_of listing)) }
{
    let mut orders = Vec::new(heap);
    let mut reader = Reader::new(input);
    let ending = loop {
        match reader.next_order() {
            Some(Ok(order)) => orders.push(order)?,
            Some(Err(refusal)) => break Err(refusal),
            None => break Ok(()),
        }
    };
    let place = reader.offset();
    Ok(Listing {
        orders,
        place,
        ending,
    })
}
