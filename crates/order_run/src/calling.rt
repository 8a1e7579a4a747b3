// The walk of an order file's caller: from order to order, and from call to answer.
ghost use Rattle.std.specs.Prelude.{◌≡◌, suc, ◌<◌, ◌≤◌, false, ◌++◌, string_bytes};
ghost use Rattle.orders.specs.Orders.{entry_of};
ghost use Rattle.board.specs.Serving.{Past, Asks, Fewer, reads_off};
ghost use Rattle.order_run.specs.declared.caller.Stage.TheVariants.{Reading};
ghost use Rattle.order_run.specs.Lines.{line, number_told, value_told};
ghost use Rattle.order_run.specs.Calling.{Unless, Holds, HoldsWith, Waits, Ends, open_ends, calls_left, turns_left, Falls, is_reading};

use crate::caller::{Head, OrderCaller, Stage};
use crate::keeping::{call_for, keep};
use crate::lines::{Reply, reply_to, write_line};
use board::{Answer, Call, Caller};
use orders::Order;
use rules::Refusal;

// Writes a line; the stage is then the one given, or that memory failed.
fn told(stage: Stage, text: &mut String, head: Head, reply: Reply) -> Stage
    requires { head.letter < 128 }
    ensures { Unless result ((result ≡ stage) × (string_bytes text.new ≡ string_bytes text.old ++ line head.letter head.place (number_told reply) (value_told reply))) }
{
    write_line(text, head, reply).map_or(Stage::Failed, |()| stage)
}

impl<'a> OrderCaller<'a> {
    // An order makes its call; one that has no ticket to bring has its line, and is refused there as a foreign ticket is.
    fn one_order(&mut self, order: &Order) -> Option<Call>
        ensures asks { (before : Past) → HoldsWith self.old before (entry_of order.now) → Asks Waits Holds self.new before result }
        ensures reader { self.new.reader ≡ self.old.reader }
        ensures ends { open_ends self.new ≤ suc (open_ends self.old) }
    {
        let head = Head::of(order);
        match call_for(order, &mut self.ticket) {
            Some(call) => {
                self.head = Some(head);
                Some(call)
            },
            None => {
                self.stage = told(self.stage, &mut self.text, head, Err(Refusal::Foreign));
                None
            },
        }
    }

    // One turn of reading: an order, a damaged one, or the end of the file.
    fn read_on(&mut self) -> Option<Call>
        ensures asks { (before : Past) → self.old.stage ≡ Reading → Holds self.old before → Asks Waits Holds self.new before result }
        ensures script { self.new.reader.input.now ≡ self.old.reader.input.now }
        ensures fewer { Falls (calls_left self.old) (calls_left self.new) result }
        ensures turns { self.old.stage ≡ Reading → turns_left self.new < turns_left self.old }
    {
        match self.reader.next_order() {
            Some(Ok(order)) => self.one_order(&order),
            Some(Err(refusal)) => {
                let head = Head::damaged(self.reader.offset());
                self.stage = told(Stage::Ended, &mut self.text, head, Err(refusal));
                None
            },
            None => {
                self.stage = Stage::Ended;
                None
            },
        }
    }

    // A ticket that is open at the end is withdrawn.
    fn close(&mut self) -> Option<Call>
        ensures asks { (before : Past) → is_reading self.old.stage ≡ false → Holds self.old before → Asks Waits Ends self.new before result }
        ensures reader { self.new.reader ≡ self.old.reader }
        ensures fewer { Fewer (calls_left self.old) (calls_left self.new) result }
    {
        self.ticket.take().map(Call::Withdraw)
    }
}

impl<'a> Caller for OrderCaller<'a> {
    ghost holds = { Holds };

    ghost waits = { Waits };

    ghost ended = { Ends };

    ghost left = { calls_left };

    ghost reads = { reads_off (λ caller. caller.reader.input.now) };

    fn next(&mut self) -> Option<Call> {
        while self.stage.is_reading() {
            if let Some(call) = self.read_on() {
                return Some(call);
            }
        }
        self.close()
    }

    fn hear(&mut self, answer: Answer) {
        let reply = reply_to(&answer);
        keep(&mut self.ticket, answer);
        if let Some(head) = self.head.take() {
            self.stage = told(self.stage, &mut self.text, head, reply);
        }
    }
}
