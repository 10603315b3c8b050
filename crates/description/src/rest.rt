ghost use Rattle.std.specs.Prelude.{◌≡◌, ⊤, ◌+◌, ◌<◌, ◌^◌, length};

use std::alloc::AllocError;

// What is left of a text after the lines that were taken from it.
pub struct Rest<'a> {
    pub text: &'a [u8],
    // How many lines were taken.
    pub taken: usize,
    ghost room: { taken + length text.now < 2 ^ 64 },
}

// By hand: no derive clones a struct with ghost fields.
impl<'a> Clone for Rest<'a> {
    ghost is_clone = { λ x y. y ≡ x };

    ghost is_infallible = { λ _. ⊤ };

    fn clone(&self) -> Result<Rest<'a>, AllocError> {
        Ok(*self)
    }
}

impl Copy for Rest<'_> {}
