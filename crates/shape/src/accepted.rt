// A set that the reader accepted.
ghost use Rattle.model.specs.Read.{set_in};
ghost use Rattle.shape.specs.Declares.{Declares};

use crate::Shape;

// Its words, lent, and their shape: whoever has one knows that the words were read without a refusal, and what they declare.
#[derive(Clone, Copy)]
pub struct AcceptedSet<'a> {
    pub words: &'a [u32],
    pub shape: Shape,
    pub ghost declares: { Declares words.now shape (set_in words.now) },
}
