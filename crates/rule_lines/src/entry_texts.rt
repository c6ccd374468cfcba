// The entries of a rule's lists on a page.
ghost use Rattle.std.specs.Prelude.{◌≡◌, ℕ, List, decimal, MatchResult};
ghost use Rattle.page.specs.Pages.{Stays, Puts, Breaks};
ghost use Rattle.rule_lines.specs.Writing.{ordinal_text, text_if, weekday_text, day_entry_text, list_text};

use calendar::weekdays::Weekday;
use page::pages::Page;
use recurrence::parts::{DayEntry, Ordinal};
use refusal::Refusal;

pub(crate) trait Written {
    ghost text: { Self → List ℕ };

    // Adds an entry; a refusal may leave a part of it.
    fn put_on(&self, page: &mut Page) -> Result<(), Refusal>
        ensures stays { Stays page.old page.new }
        ensures cases { MatchResult result (λ _. Puts (text self.now) page.old page.new) (λ e. Breaks (text self.now) page.old e) };
}

impl Written for u8 {
    ghost text = { λ m. decimal m };

    fn put_on(&self, page: &mut Page) -> Result<(), Refusal> {
        page.put_decimal(*self as usize)
    }
}

impl Written for Ordinal {
    ghost text = { λ o. ordinal_text o };

    fn put_on(&self, page: &mut Page) -> Result<(), Refusal> {
        match *self {
            Ordinal::FromStart(n) => page.put_decimal(n as usize),
            Ordinal::FromEnd(n) => {
                page.put(b"-")?;
                page.put_decimal(n as usize)
            }
        }
    }
}

// Adds what there is, of nothing nothing.
impl<T: Written> Written for Option<T> {
    ghost text = { λ o. text_if T.Written.text o };

    fn put_on(&self, page: &mut Page) -> Result<(), Refusal> {
        match self {
            None => page.put(b""),
            Some(entry) => entry.put_on(page),
        }
    }
}

// Octets for a page, which takes no Display.
pub(crate) fn weekday_octets(weekday: Weekday) -> &'static [u8]
    ensures { result.now ≡ weekday_text weekday }
{
    match weekday {
        Weekday::Monday => b"MO",
        Weekday::Tuesday => b"TU",
        Weekday::Wednesday => b"WE",
        Weekday::Thursday => b"TH",
        Weekday::Friday => b"FR",
        Weekday::Saturday => b"SA",
        Weekday::Sunday => b"SU",
    }
}

impl Written for DayEntry {
    ghost text = { λ e. day_entry_text e };

    fn put_on(&self, page: &mut Page) -> Result<(), Refusal> {
        self.ordinal.put_on(page)?;
        page.put(weekday_octets(self.weekday))
    }
}

// Adds entries, parted by commas behind a name, or nothing where there is none.
pub(crate) fn put_list<T: Written>(page: &mut Page, name: &[u8], list: &[T]) -> Result<(), Refusal>
    ensures stays { Stays page.old page.new }
    ensures cases { MatchResult result (λ _. Puts (list_text name.now T.Written.text list.now) page.old page.new) (λ e. Breaks (list_text name.now T.Written.text list.now) page.old e) }
{
    // not put(b""): the loop's facts would begin at the page that it leaves, and the promise at the call's
    if page.len > page.octets.len() {
        return Err(Refusal::PageFull);
    }
    let mut mark = name;
    for entry in list {
        page.put(mark)?;
        entry.put_on(page)?;
        mark = b",";
    }
    Ok(())
}
