// A walk along the caller's bytes, from order to order.
ghost use Rattle.std.specs.Prelude.{◌≡◌, ◌≤◌, length};

mod walk;

#[derive(Clone, Copy)]
pub struct Reader<'a> {
    input: &'a [u8],
    offset: usize,
    ghost within: { offset ≤ length input.now },
}

impl<'a> Reader<'a> {
    pub fn new(input: &'a [u8]) -> Reader<'a>
        ensures input { result.input.now ≡ input.now }
        ensures offset { result.offset ≡ 0 }
    {
        Reader { input, offset: 0 }
    }

    pub fn offset(&self) -> usize
        ensures { result ≡ self.now.offset }
    {
        self.offset
    }
}
