// The list itself: a plain value, which arrayvec's ArrayVec is not, so that what holds one can be kept twice.
ghost use Rattle.std.specs.Prelude.{◌≡◌, ◌≤◌, ⊤};

use std::alloc::AllocError;

// The first len of the items count; what stands past them means nothing, so that `==` is not derived.
pub struct Bounded<T, const N: usize> {
    pub items: [T; N],
    pub len: usize,
    ghost few: { len ≤ N },
}

// By hand: beside a ghost field, `derive` is refused for a struct that is generic in a type (`derive-over-ghost-field`).
impl<T: Copy, const N: usize> Clone for Bounded<T, N> {
    ghost is_clone = { λ b c. c ≡ b };

    ghost is_infallible = { λ _. ⊤ };

    fn clone(&self) -> Result<Bounded<T, N>, AllocError> {
        Ok(*self)
    }
}

impl<T: Copy, const N: usize> Copy for Bounded<T, N> {}
