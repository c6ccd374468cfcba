// The line that says what was printed.
ghost use Rattle.std.specs.Prelude.{MatchResult};
ghost use Rattle.page.specs.Pages.{Stays, Puts, Lacks};
ghost use Rattle.page.specs.Summaries.{summary_text};

use crate::numbers::date_octets;
use crate::pages::Page;
use calendar::date::Date;
use itoa::Buffer;
use refusal::Refusal;

impl Page<'_> {
    // Adds the line that says how many lines were printed, and of which days.
    pub fn put_summary(&mut self, lines: usize, first: Date, last: Date) -> Result<(), Refusal>
        ensures stays { Stays self.old self.new }
        ensures cases { MatchResult result (λ _. Puts (summary_text lines first last) self.old self.new) (λ e. Lacks (summary_text lines first last) self.old self.new e) }
    {
        let mut digits = Buffer::new();
        let count = digits.format(lines).as_bytes();
        let begin = date_octets(first);
        let end = date_octets(last);
        self.put_all(&[
            b"printed ",
            count,
            b" lines from ",
            &begin,
            b" to ",
            &end,
            b"\n",
        ])
    }
}
