// How the rule in a slot stands to a new rule.
ghost use Rattle.std.specs.Prelude.{◌≡◌};
ghost use Rattle.shifting.specs.Slots.{above, below, level};
ghost use Rattle.placing.specs.Standings.{is_above, is_below, is_level};

use rules::{Kind, Rule};
use std::cmp::Ordering;

// How the priority of the rule in a slot stands to that of a new rule; none where no rule meets the new one.
pub fn standing_of<K: Kind>(new: Rule, held: Option<Rule>) -> Option<Ordering>
    ensures above { is_above result ≡ above K.Kind.meaning new held }
    ensures below { is_below result ≡ below K.Kind.meaning new held }
    ensures level { is_level result ≡ level K.Kind.meaning new held }
{
    let rule = held?;
    new.meets::<K>(rule)
        .then(|| rule.priority.cmp(&new.priority))
}
