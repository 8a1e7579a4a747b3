// Orders as calls, and the ticket in hand.
ghost use Rattle.std.specs.Prelude.{◌≡◌};
ghost use Rattle.orders.specs.Orders.{entry_of};
ghost use Rattle.order_run.specs.Running.{rule_in, call_in};
ghost use Rattle.order_run.specs.Calling.{named, asked, in_hand, kept, Room};

use board::{Answer, Call, Ticket};
use orders::{AddOrder, Order};
use rules::Rule;

// Kept: From would be no plainer: it would stand in the crate of orders, which knows no runs, and this clause speaks of one.
fn new_rule(add: &AddOrder) -> Rule
    ensures { result ≡ rule_in add.now.0.bytes.now }
{
    Rule {
        number: add.number(),
        priority: add.priority(),
        action: add.action(),
        word_a: add.word_a(),
        word_b: add.word_b(),
    }
}

// Step, complete and withdraw take the ticket along, and are no call without one.
pub(crate) fn call_for(order: &Order, hand: &mut Option<Ticket>) -> Option<Call>
    ensures call { call_in (entry_of order.now) (named hand.old) ≡ asked result }
    ensures hand { hand.new ≡ in_hand result hand.old }
{
    match order {
        Order::Add(add) => Some(Call::Add(new_rule(add))),
        Order::Drop(drop) => Some(Call::DropRule(drop.number())),
        Order::Change(change) => Some(Call::ChangeAction(change.number(), change.action())),
        Order::LookUp(look_up) => Some(Call::LookUp(look_up.subject())),
        Order::Step(_) => hand.take().map(Call::Step),
        Order::Complete(_) => hand.take().map(Call::Complete),
        Order::Withdraw(_) => hand.take().map(Call::Withdraw),
    }
}

// A ticket that an answer brings is kept.
pub(crate) fn keep(hand: &mut Option<Ticket>, answer: Answer)
    requires { Room answer hand.old }
    ensures { hand.new ≡ kept answer hand.old }
{
    match answer {
        Answer::Opened(ticket) | Answer::Stepped(_, ticket) | Answer::HandedBack(_, ticket) => {
            *hand = Some(ticket);
        }
        Answer::Closed(_) | Answer::Done | Answer::Found(_) | Answer::Refused(_) => (),
    }
}
