// A part of an order file: the bytes of one order, mark and letter included, and the place of the first.
#![tactic(auto, using(crate::proofs::Numbers::two_bytes))]

ghost use Rattle.std.specs.Prelude.{◌≡◌, ◌+◌, ◌≤◌, length, drop, take};
ghost use Rattle.orders.specs.Layout.{number_in};

#[derive(Clone, Copy)]
pub struct Part<'a, const LENGTH: usize> {
    pub place: usize,
    pub bytes: &'a [u8; LENGTH],
}

// The longest order is an add, of 27 bytes.
// Kept: an invariant in place of the `requires` would be no plainer: a part has public fields, so whoever makes one would owe it.
impl<'a, const LENGTH: usize> Part<'a, LENGTH> {
    pub(crate) fn shown(&self) -> (usize, &'a [u8])
        requires { LENGTH ≤ 27 }
        ensures place { result.0 ≡ self.now.place }
        ensures bytes { result.1.now ≡ self.now.bytes.now }
        ensures length { length result.1.now ≡ LENGTH }
    {
        let bytes = self.bytes;
        (self.place, bytes)
    }

    // So many bytes of the order, from one of its bytes on.
    pub(crate) fn field<const SIZE: usize>(&self, from: usize) -> [u8; SIZE]
        requires within { from + SIZE ≤ LENGTH }
        requires length { LENGTH ≤ 27 }
        ensures { result ≡ take SIZE (drop from self.now.bytes.now) }
    {
        let (_, bytes) = self.shown();
        *bytes[from..].first_chunk().unwrap()
    }

    // The rule's number, which stands in an add, a drop and a change. Numbers stand high byte first.
    pub(crate) fn number(&self) -> u16
        requires within { 5 ≤ LENGTH }
        requires length { LENGTH ≤ 27 }
        ensures { result ≡ number_in self.now.bytes.now }
    {
        u16::from_be_bytes(self.field(3))
    }
}
