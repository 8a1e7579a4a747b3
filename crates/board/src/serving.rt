// Serving whoever issues calls, from a cleared board to the caller's end.
ghost use Rattle.std.specs.Prelude.{◌≡◌, []};
ghost use Rattle.rules.specs.Devices.{SameLoans};
ghost use Rattle.board.specs.Led.{Obeys, Same};
ghost use Rattle.board.specs.Calls.{call_of, answer_of, returned, goes_back};
ghost use Rattle.board.specs.Serving.{past_of, Served};

use crate::board::Board;
use crate::caller::Caller;
use crate::calls::{Answer, Call};
use rules::SlotDevice;

// One call, whichever it is.
// Kept: a closure in a call's place would be no plainer: the contract of a caller names the call that it makes.
fn take_call<D: SlotDevice>(board: &mut Board<'_, D>, call: Call) -> Answer
    ensures law { Obeys D.Kind.Kind.meaning D.SlotDevice (call_of call) (answer_of result) board.old board.new }
    ensures back { returned result ≡ goes_back (call_of call) (answer_of result) }
    ensures same { Same D.SlotDevice board.old board.new }
{
    match call {
        Call::Add(new) => Answer::from(board.add(new)),
        Call::Step(ticket) => match board.step(&ticket) {
            Ok(left) => Answer::Stepped(left, ticket),
            Err(refusal) => Answer::HandedBack(refusal, ticket),
        },
        Call::Complete(ticket) => Answer::from(board.complete(ticket)),
        Call::Withdraw(ticket) => Answer::from(board.withdraw(ticket)),
        Call::DropRule(rule) => Answer::from(board.drop(rule)),
        Call::ChangeAction(rule, action) => Answer::from(board.change(rule, action)),
        Call::LookUp(subject) => Answer::from(board.look_up(subject)),
    }
}

// Opens a board over a device and serves a caller to its end. Whoever lent the device its memory knows it again by the loans, which stay the same;
// and the caller still reads off the same script.
pub fn serve<D: SlotDevice, C: Caller>(device: &mut D, number: u16, caller: &mut C)
    requires { C.Caller.holds caller.old (past_of D.Kind.Kind.meaning D.SlotDevice number device.old []) }
    ensures served { Served C.Caller.ended D.Kind.Kind.meaning D.SlotDevice number device.old device.new caller.new }
    ensures same { SameLoans D.SlotDevice device.old device.new }
    ensures script { C.Caller.reads.of caller.new ≡ C.Caller.reads.of caller.old }
{
    let mut board = Board::open(device, number);
    while let Some(call) = caller.next() {
        caller.hear(take_call(&mut board, call));
    }
}
