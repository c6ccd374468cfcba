// Decimals, dates and clocks on a page.
// Dates and clocks by hand: a width and leading zeros only `write!` has, and it says nothing of a write that is refused.
ghost use Rattle.std.specs.Prelude.{◌≡◌, decimal, MatchResult};
ghost use Rattle.page.specs.Pages.{Stays, Puts, Lacks};
ghost use Rattle.page.specs.Lines.{date_text, clock_text, two};

use crate::pages::Page;
use calendar::date::Date;
use itoa::Buffer;
use refusal::Refusal;

// The last two digits of a number, with leading zeros.
fn two_digits(n: u16) -> [u8; 2]
    ensures { result ≡ two n }
{
    [b'0' + (n / 10 % 10) as u8, b'0' + (n % 10) as u8]
}

// The date as yyyymmdd.
#[tactic(auto, unfolding(crate::specs::Lines::date_text))]
pub(crate) fn date_octets(date: Date) -> [u8; 8]
    ensures { result ≡ date_text date }
{
    let [a, b] = two_digits(date.year / 100);
    let [c, d] = two_digits(date.year);
    let [e, f] = two_digits(date.month as u16);
    let [g, h] = two_digits(date.day as u16);
    [a, b, c, d, e, f, g, h]
}

// The clock as hhmm.
#[tactic(auto, unfolding(crate::specs::Lines::clock_text))]
pub(crate) fn clock_octets(clock: u16) -> [u8; 4]
    ensures { result ≡ clock_text clock }
{
    let [a, b] = two_digits(clock / 60);
    let [c, d] = two_digits(clock % 60);
    [a, b, c, d]
}

impl Page<'_> {
    // Adds a number without leading zeros.
    pub fn put_decimal(&mut self, n: usize) -> Result<(), Refusal>
        ensures stays { Stays self.old self.new }
        ensures cases { MatchResult result (λ _. Puts (decimal n) self.old self.new) (λ e. Lacks (decimal n) self.old self.new e) }
    {
        let mut digits = Buffer::new();
        self.put(digits.format(n).as_bytes())
    }

    // Adds a date as yyyymmdd.
    pub fn put_date(&mut self, date: Date) -> Result<(), Refusal>
        ensures stays { Stays self.old self.new }
        ensures cases { MatchResult result (λ _. Puts (date_text date) self.old self.new) (λ e. Lacks (date_text date) self.old self.new e) }
    {
        self.put(&date_octets(date))
    }

    // Adds a minute of the day as hhmm.
    pub fn put_clock(&mut self, clock: u16) -> Result<(), Refusal>
        ensures stays { Stays self.old self.new }
        ensures cases { MatchResult result (λ _. Puts (clock_text clock) self.old self.new) (λ e. Lacks (clock_text clock) self.old self.new e) }
    {
        self.put(&clock_octets(clock))
    }
}
