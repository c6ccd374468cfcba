// Windows: the starts from one on, up to another.
ghost use Rattle.std.specs.Prelude.{◌≡◌};
ghost use Rattle.calendar.specs.Starts.{is_window};

use crate::starts::STARTS_END;

// The starts from `from` on that lie before `end`. Not every such pair is a window: `is_sound` tells.
#[derive(Clone, Copy, PartialEq, Eq, Debug)]
pub struct Window {
    pub from: u32,
    pub end: u32,
}

impl Window {
    // Whether the window does not end before it begins, nor past the last start.
    pub fn is_sound(self) -> bool
        ensures { result ≡ is_window self.from self.end }
    {
        self.from <= self.end && self.end <= STARTS_END
    }
}
