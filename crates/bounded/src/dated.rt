// Whether records with days climb.
ghost use Rattle.std.specs.Prelude.{◌≡◌, ℕ, Bool, true};
ghost use Rattle.bounded.specs.Climbing.{climbing};

use calendar::days::LAST_DAY;

// What has a day, and may carry more.
pub trait Dated {
    ghost day_of: { Self → ℕ };

    ghost carries: { Self → Bool };

    fn day(&self) -> u32
        ensures { result ≡ day_of self.now };

    // Whether what it carries is in bounds.
    fn fits(&self) -> bool
        ensures { result ≡ carries self.now };
}

// A day alone carries nothing.
impl Dated for u32 {
    ghost day_of = { λ d. d };

    ghost carries = { λ _. true };

    fn day(&self) -> u32 {
        *self
    }

    fn fits(&self) -> bool {
        true
    }
}

// Whether each day comes after the one before it, none past the last, and all that they carry is in bounds.
pub fn climb<T: Dated>(items: &[T]) -> bool
    ensures { result ≡ climbing T.day_of T.carries 0 items.now }
{
    let mut least = 0;
    for item in items {
        let day = item.day();
        if day < least || day > LAST_DAY || !item.fits() {
            return false;
        }
        least = day + 1;
    }
    true
}
