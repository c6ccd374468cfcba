// The agenda's lines of one event in a window.
ghost use Rattle.std.specs.Prelude.{◌≡◌, ℕ, ◌+◌, ◌*◌, ◌<◌, ◌≤◌, length, MatchResult};
ghost use Rattle.calendar.specs.Years.{last_day};
ghost use Rattle.page.specs.Pages.{Stays, Puts, Breaks, Lacks};
ghost use Rattle.event.specs.Agenda.{day_line, agenda_text, shown_days, Printed, Refused};

use crate::events::Event;
use calendar::days::date_of;
use calendar::starts::DAY_MINUTES;
use calendar::windows::Window;
use page::pages::Page;
use refusal::Refusal;
use source::sources::Source;
use source::walks::days_from;

// The first day that starts at or after a number of minutes.
fn first_day(from: u32, clock: u16) -> u32
    requires { (from ≤ 157785120) × (clock < 1440) }
    ensures below { (d : ℕ) → d < result → d * 1440 + clock < from }
    ensures above { (d : ℕ) → result ≤ d → from ≤ d * 1440 + clock }
    ensures bound { result ≤ 109573 }
{
    from.saturating_sub(clock as u32).div_ceil(DAY_MINUTES)
}

impl<S> Event<S> {
    // Adds the line of the occurrence on a day.
    fn put_day(&self, day: u32, page: &mut Page) -> Result<(), Refusal>
        requires { day ≤ last_day }
        ensures stays { Stays page.old page.new }
        ensures cases { MatchResult result (λ _. Puts (day_line self.now.uid self.now.series day) page.old page.new) (λ e. Lacks (day_line self.now.uid self.now.series day) page.old page.new e) }
    {
        page.put_line(
            date_of(day).unwrap(),
            self.series.clock.minutes(),
            self.series.duration.minutes(),
            self.uid.as_bytes(),
            self.series.text.as_bytes(),
        )
    }
}

impl<S: Source> Event<S> {
    // Adds the lines of a window day by day; a refusal leaves those before it.
    fn put_days(&self, window: Window, page: &mut Page) -> Result<usize, Refusal>
        requires { window.from ≤ 157785120 }
        ensures stays { Stays page.old page.new }
        ensures cases { MatchResult result (λ n. (n ≡ length (shown_days S.Source.days self.now.series window)) × Puts (agenda_text S.Source.days self.now.uid self.now.series window) page.old page.new) (λ e. Breaks (agenda_text S.Source.days self.now.uid self.now.series window) page.old e) }
    {
        // not put(b""): the loop's facts would begin at the page that it leaves, and the promise at the call's
        if page.len > page.octets.len() {
            return Err(Refusal::PageFull);
        }
        let minute = self.series.clock.minutes();
        let mut lines = 0;
        for day in days_from(&self.series.source, first_day(window.from, minute)) {
            if day * DAY_MINUTES + minute as u32 >= window.end {
                break;
            }
            self.put_day(day, page)?;
            lines += 1;
        }
        Ok(lines)
    }

    // The event's lines for the occurrences that start in a window, and their number.
    pub fn agenda(&self, window: Window, page: &mut Page) -> Result<usize, Refusal>
        ensures stays { Stays page.old page.new }
        ensures cases { MatchResult result (λ n. Printed S.Source.days self.now.uid self.now.series window n page.old page.new) (λ e. Refused S.Source.days self.now.uid self.now.series window page.old page.new e) }
    {
        if !window.is_sound() {
            return Err(Refusal::BadWindow);
        }
        page.whole(|page| self.put_days(window, page))
    }
}
