// The agenda's line.
ghost use Rattle.std.specs.Prelude.{MatchResult};
ghost use Rattle.page.specs.Pages.{Stays, Puts, Lacks};
ghost use Rattle.page.specs.Lines.{line_text};

use crate::numbers::{clock_octets, date_octets};
use crate::pages::Page;
use calendar::date::Date;
use itoa::Buffer;
use refusal::Refusal;

impl Page<'_> {
    // Adds one line: date, clock, duration, UID and text.
    #[tactic(auto, unfolding(crate::specs::Lines::fields_text))]
    pub fn put_line(
        &mut self,
        date: Date,
        clock: u16,
        duration: u16,
        uid: &[u8],
        text: &[u8],
    ) -> Result<(), Refusal>
        ensures stays { Stays self.old self.new }
        ensures cases { MatchResult result (λ _. Puts (line_text date clock duration uid.now text.now) self.old self.new) (λ e. Lacks (line_text date clock duration uid.now text.now) self.old self.new e) }
    {
        let day = date_octets(date);
        let minute = clock_octets(clock);
        let mut digits = Buffer::new();
        let minutes = digits.format(duration).as_bytes();
        self.put_all(&[
            &day, b",", &minute, b",", minutes, b",", uid, b",", text, b"\n",
        ])
    }
}
