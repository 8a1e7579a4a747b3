// What a slot is looked at for.
ghost use Rattle.std.specs.Prelude.{◌≡◌};
ghost use Rattle.shifting.specs.Slots.{empty, above, below, level};
ghost use Rattle.shifting.specs.Machine.{has_number};

use crate::standing::standing_of;
use rules::{Kind, Rule};
use std::cmp::Ordering;

// Whether no rule stands in the slot.
pub fn is_empty(held: Option<Rule>) -> bool
    ensures { result ≡ empty held }
{
    held.is_none()
}

// Whether the rule in the slot has this number.
pub fn has_number(number: u16, held: Option<Rule>) -> bool
    ensures { result ≡ has_number number held }
{
    held.is_some_and(|rule| rule.number == number)
}

// Whether the rule in the slot meets a new one and has higher priority.
pub(crate) fn stands_above<K: Kind>(new: Rule, held: Option<Rule>) -> bool
    ensures { result ≡ above K.Kind.meaning new held }
{
    matches!(standing_of::<K>(new, held), Some(Ordering::Greater))
}

// Whether it meets the new one and has lower priority.
pub(crate) fn stands_below<K: Kind>(new: Rule, held: Option<Rule>) -> bool
    ensures { result ≡ below K.Kind.meaning new held }
{
    matches!(standing_of::<K>(new, held), Some(Ordering::Less))
}

// Whether it meets the new one and has the same priority.
pub(crate) fn stands_level<K: Kind>(new: Rule, held: Option<Rule>) -> bool
    ensures { result ≡ level K.Kind.meaning new held }
{
    matches!(standing_of::<K>(new, held), Some(Ordering::Equal))
}
