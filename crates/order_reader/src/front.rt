// The order at the front of what is left of a file.
ghost use Rattle.std.specs.Prelude.{◌≡◌, ◌-◌, ◌≤◌, ◌&&◌, length, Some, ◌==◌, slice_index};
ghost use Rattle.orders.specs.Layout.{front, lettered};
ghost use Rattle.order_reader.specs.Reading.{Gives, Cuts};

use orders::{AddOrder, ChangeOrder, DropOrder, LookUpOrder, Order, Part};
use rules::Refusal;

// Kept: a struct of what is left and its place would be no plainer: it would be a second reader.
pub(crate) fn first_order<'a>(left: &'a [u8], place: usize) -> Option<Result<Order<'a>, Refusal>>
    ensures { Gives (front left.now) place left.now result }
{
    match left {
        [] => None,
        [_] | [_, _] => Some(Err(Refusal::CutShort)),
        [b'K', b'T', letter, ..] => Some(order_by_letter(*letter, left, place)),
        _ => Some(Err(Refusal::Unmarked)),
    }
}

// The order that follows its mark.
fn order_by_letter<'a>(letter: u8, left: &'a [u8], place: usize) -> Result<Order<'a>, Refusal>
    requires { (3 ≤ length left.now) × (letter ≡ slice_index left.now 2) }
    ensures { Gives (lettered letter (length left.now - 3)) place left.now (Some result) }
{
    match letter {
        b'A' => Ok(Order::Add(AddOrder(cut(left, place)?))),
        b'D' => Ok(Order::Drop(DropOrder(cut(left, place)?))),
        b'C' => Ok(Order::Change(ChangeOrder(cut(left, place)?))),
        b'L' => Ok(Order::LookUp(LookUpOrder(cut(left, place)?))),
        b'S' => Ok(Order::Step(cut(left, place)?)),
        b'E' => Ok(Order::Complete(cut(left, place)?)),
        b'W' => Ok(Order::Withdraw(cut(left, place)?)),
        _ => Err(Refusal::StrangeLetter),
    }
}

// So many bytes of what is left, where there are as many.
fn cut<'a, const LENGTH: usize>(left: &'a [u8], place: usize) -> Result<Part<'a, LENGTH>, Refusal>
    requires { LENGTH ≤ 27 }
    ensures { Cuts LENGTH place left.now result }
{
    let bytes = left.first_chunk().ok_or(Refusal::CutShort)?;
    Ok(Part { place, bytes })
}
