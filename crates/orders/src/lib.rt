// Orders as they lie in the bytes of an order file.
#![tactic(auto)]

mod add_order;
mod change_order;
mod drop_order;
mod look_up_order;
mod order;
mod part;

pub use add_order::AddOrder;
pub use change_order::ChangeOrder;
pub use drop_order::DropOrder;
pub use look_up_order::LookUpOrder;
pub use order::Order;
pub use part::Part;
