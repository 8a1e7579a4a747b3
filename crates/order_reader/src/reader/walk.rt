// The reader's step from one order to the next.
ghost use Rattle.std.specs.Prelude.{◌≡◌, drop};
ghost use Rattle.orders.specs.Layout.{front};
ghost use Rattle.order_reader.specs.Reading.{Gives, offset_after};

use super::Reader;
use crate::front::first_order;
use orders::Order;
use rules::Refusal;

impl<'a> Reader<'a> {
    // The next order, or why there is none: the reader stays before an order that it refuses.
    // Kept: an impl Iterator would be no plainer: it would give a refusal for ever, and a `for` or a chain wants an end.
    pub fn next_order(&mut self) -> Option<Result<Order<'a>, Refusal>>
        ensures input { self.new.input ≡ self.old.input }
        ensures answer { Gives (front (drop self.old.offset self.old.input.now)) self.old.offset (drop self.old.offset self.old.input.now) result }
        ensures offset { self.new.offset ≡ offset_after self.old.offset result }
    {
        let input = self.input;
        let offset = self.offset;
        let (_, left) = input.split_at(offset);
        let outcome = first_order(left, offset);
        if let Some(Ok(order)) = &outcome {
            self.offset += order.bytes().len();
        }
        outcome
    }
}
