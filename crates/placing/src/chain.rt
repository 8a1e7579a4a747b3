// A chain of slots. It holds all the places that a chain can need, so that no call has to find memory.
ghost use Rattle.std.specs.Prelude.{◌≡◌, ◌+◌, ◌<◌, [], ◌∷◌, ◌++◌, length, take, slice_index};

// Only the first `length` places are slots of the chain.
// Kept: the C interface has a chain as 480 places and a length, and no call may find memory.
#[derive(Clone, Copy)]
#[repr(C)]
pub struct Chain {
    pub places: [u16; 480],
    pub length: u16,
}

impl Chain {
    pub const NONE: Chain = Chain {
        places: [0; 480],
        length: 0,
    };

    // One more slot at the end.
    pub(crate) fn push(&mut self, slot: u16)
        requires { self.old.length < 480 }
        ensures length { self.new.length ≡ self.old.length + 1 }
        ensures slots { take self.new.length self.new.places ≡ take self.old.length self.old.places ++ slot ∷ [] }
    {
        self.places[usize::from(self.length)] = slot;
        self.length += 1;
    }

    // A slot by its place in the chain; past all places it is 0.
    // Kept: an Option would be no plainer: the job asks for places within, and would have to give a slot again where there is none.
    pub fn slot(&self, place: u16) -> u16
        ensures { result ≡ slice_index self.now.places place }
    {
        self.places.get(usize::from(place)).copied().unwrap_or(0)
    }
}
