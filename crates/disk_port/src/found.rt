ghost use Rattle.std.specs.Prelude.{◌≡◌};

use crate::side::Side;

/// The open slot that counts in the image of a file.
#[derive(Clone, Copy, Debug)]
pub struct Found<'a> {
    pub side: Side,
    pub generation: u64,
    pub body: &'a [u8],
}

impl<'a> Found<'a> {
    pub(crate) fn new(side: Side, generation: u64, body: &'a [u8]) -> Found<'a>
        ensures side { result.side ≡ side }
        ensures generation { result.generation ≡ generation }
        ensures body { result.body.now ≡ body.now }
    {
        Found {
            side,
            generation,
            body,
        }
    }
}
