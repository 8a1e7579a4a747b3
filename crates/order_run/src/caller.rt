// The caller that walks an order file.
ghost use Rattle.std.specs.Prelude.{◌≡◌};
ghost use Rattle.orders.specs.Orders.{letter_of, place_of};
ghost use Rattle.order_run.specs.Calling.{is_reading};

use board::Ticket;
use order_reader::Reader;
use orders::Order;

// Memory that fails is remembered: the run then ends without its text.
#[derive(Clone, Copy)]
pub(crate) enum Stage {
    Reading,
    Ended,
    Failed,
}

impl Stage {
    pub(crate) fn is_reading(self) -> bool
        ensures { result ≡ is_reading self }
    {
        matches!(self, Stage::Reading)
    }
}

// What a line begins with: the order's letter and place.
#[derive(Clone, Copy)]
pub(crate) struct Head {
    pub(crate) letter: u8,
    pub(crate) place: usize,
}

impl Head {
    pub(crate) fn of(order: &Order) -> Head
        ensures letter { result.letter ≡ letter_of order.now }
        ensures place { result.place ≡ place_of order.now }
    {
        Head {
            letter: order.letter(),
            place: order.place(),
        }
    }

    // A damaged order has a question mark for its letter.
    pub(crate) fn damaged(place: usize) -> Head
        ensures letter { result.letter ≡ 0x3F }
        ensures place { result.place ≡ place }
    {
        Head {
            letter: b'?',
            place,
        }
    }
}

pub(crate) struct OrderCaller<'a> {
    pub(crate) reader: Reader<'a>,
    pub(crate) stage: Stage,
    // the ticket in hand
    pub(crate) ticket: Option<Ticket>,
    // of the order whose answer is awaited
    pub(crate) head: Option<Head>,
    pub(crate) text: String,
}
