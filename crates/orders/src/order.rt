// One order of a file, by its letter. Each still holds its own part of the input.
ghost use Rattle.std.specs.Prelude.{◌≡◌};
ghost use Rattle.orders.specs.Orders.{letter_of, place_of, bytes_of};

use crate::add_order::AddOrder;
use crate::change_order::ChangeOrder;
use crate::drop_order::DropOrder;
use crate::look_up_order::LookUpOrder;
use crate::part::Part;

#[derive(Clone, Copy)]
pub enum Order<'a> {
    Add(AddOrder<'a>),
    Drop(DropOrder<'a>),
    Change(ChangeOrder<'a>),
    LookUp(LookUpOrder<'a>),
    Step(Part<'a, 3>),
    Complete(Part<'a, 3>),
    Withdraw(Part<'a, 3>),
}

impl<'a> Order<'a> {
    pub fn letter(&self) -> u8
        ensures { result ≡ letter_of self.now }
    {
        match self {
            Order::Add(_) => b'A',
            Order::Drop(_) => b'D',
            Order::Change(_) => b'C',
            Order::LookUp(_) => b'L',
            Order::Step(_) => b'S',
            Order::Complete(_) => b'E',
            Order::Withdraw(_) => b'W',
        }
    }

    // Where the order's first byte stands in the input.
    pub fn place(&self) -> usize
        ensures { result ≡ place_of self.now }
    {
        self.shown().0
    }

    // All bytes of the order, mark and letter included.
    pub fn bytes(&self) -> &'a [u8]
        ensures { result.now ≡ bytes_of self.now }
    {
        self.shown().1
    }

    // The part of the file that the order is, whatever its length.
    fn shown(&self) -> (usize, &'a [u8])
        ensures place { result.0 ≡ place_of self.now }
        ensures bytes { result.1.now ≡ bytes_of self.now }
    {
        match self {
            Order::Add(AddOrder(part)) => part.shown(),
            Order::Drop(DropOrder(part)) => part.shown(),
            Order::Change(ChangeOrder(part)) => part.shown(),
            Order::LookUp(LookUpOrder(part)) => part.shown(),
            Order::Step(part) | Order::Complete(part) | Order::Withdraw(part) => part.shown(),
        }
    }
}
