// The half of a pair that a slot is in, and its number there.
ghost use Rattle.std.specs.Prelude.{◌≡◌, ◌+◌, nat_le};
ghost use Rattle.pair.specs.Halves.{half_of};

// Kept: Either would be no plainer: its two cases have no names of their own.
#[derive(Clone, Copy)]
pub(crate) enum Half {
    First(u16),
    Second(u16),
}

// Whether the slots of both devices can be numbered together.
pub(crate) fn both_fit(first: u16, second: u16) -> bool
    ensures { result ≡ nat_le (first + second) 65535 }
{
    first.checked_add(second).is_some()
}

// By the counts of the two devices.
pub(crate) fn half_of(first: u16, second: u16, slot: u16) -> Half
    ensures { result ≡ half_of first second slot }
{
    if slot < first || !both_fit(first, second) {
        Half::First(slot)
    } else {
        Half::Second(slot - first)
    }
}
