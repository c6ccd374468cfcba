// The entries of the lists of a rule.
ghost use Rattle.std.specs.Prelude.{◌≡◌, ℕ, List, Option};
ghost use Rattle.rule_text.specs.Entries.{month_named, month_day_named, day_entry_named};

use crate::words::weekday_named;
use notation::digits::numeral_of;
use notation::fields::first_rest;
use recurrence::parts::{DayEntry, Ordinal};

// What a field of a list may name.
pub(crate) trait Entry: Copy + Sized {
    ghost named: { List ℕ → Option Self };

    fn read(octets: &[u8]) -> Option<Self>
        ensures { result ≡ named octets.now };
}

impl Entry for u8 {
    ghost named = { month_named };

    // One or two digits.
    fn read(octets: &[u8]) -> Option<u8> {
        let month = numeral_of(octets, 1, 2)?;
        Some(month as u8)
    }
}

impl Entry for Ordinal {
    ghost named = { month_day_named };

    // One or two digits with or without a sign.
    fn read(octets: &[u8]) -> Option<Ordinal> {
        let (letter, rest) = first_rest(octets)?;
        match letter {
            '-' => u8::read(rest).map(Ordinal::FromEnd),
            '+' => u8::read(rest).map(Ordinal::FromStart),
            _ => u8::read(octets).map(Ordinal::FromStart),
        }
    }
}

impl Entry for DayEntry {
    ghost named = { day_entry_named };

    // An ordinal, if there is one, and the two letters of a weekday.
    fn read(octets: &[u8]) -> Option<DayEntry> {
        let (front, back) = octets.split_last_chunk::<2>()?;
        let ordinal = if front.is_empty() {
            None
        } else {
            Some(Ordinal::read(front)?)
        };
        let weekday = weekday_named(back)?;
        Some(DayEntry { weekday, ordinal })
    }
}
