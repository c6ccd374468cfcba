// The refusals of all calls, with their numbers.
#![tactic(auto)]

ghost use Rattle.std.specs.Prelude.{◌≡◌, ℕ};
ghost use Rattle.refusal.specs.Numbers.{number as number_of};
ghost use Rattle.refusal.specs.declared.Refusal.{Refusal as AnyRefusal};

use std::fmt;

#[derive(Clone, Copy, PartialEq, Eq, Debug)]
pub enum Refusal {
    // a text has not the form that is asked for
    Malformed = 7,
    // a value is out of bounds
    OutOfBounds = 8,
    // a part of a rule is unknown, repeated or malformed, or FREQ is absent
    BadPart = 9,
    // parts of a rule that may not stand together
    RuleConflict = 10,
    // the start of a rule is not among its days
    StartNotPicked = 11,
    // the UID is there already
    UidPresent = 12,
    // the UID is held by a draft
    UidHeld = 14,
    // the store has no room for another UID
    StoreFull = 15,
    // the day is not one of the source's
    OffSource = 17,
    // the page has no room left, or its length lies past its end
    PageFull = 23,
    // a window ends before it begins, or past the last start
    BadWindow = 24,
    // the source has no day
    EmptySource = 25,
    // the undo log has too few places
    ShortUndoLog = 26,
}

impl Refusal {
    // The number by which users know a refusal; no two have the same.
    pub fn number(self) -> u8
        ensures value { result ≡ number_of self }
        ensures alone { (e : AnyRefusal) → number_of e ≡ result → e ≡ self }
    {
        self as u8
    }

    // What is wrong, as a sentence for a person. Beside the Display, which writes it: a text that cannot fail.
    pub fn sentence(self) -> &'static str {
        match self {
            Refusal::Malformed => "the text has not the form that is asked for",
            Refusal::OutOfBounds => "a value is out of bounds",
            Refusal::BadPart =>
                "a part of the rule is unknown, repeated or malformed, or there is no FREQ",
            Refusal::RuleConflict => "parts of the rule may not stand together",
            Refusal::StartNotPicked => "the rule does not pick its start",
            Refusal::UidPresent => "the UID is there already",
            Refusal::UidHeld => "the UID is held by a draft",
            Refusal::StoreFull => "there is no place left for another UID",
            Refusal::OffSource => "an override is of a day that the series does not have",
            Refusal::PageFull => "the page is full",
            Refusal::BadWindow => "the window ends before it begins, or past the last day",
            Refusal::EmptySource => "the series has no day",
            Refusal::ShortUndoLog => "the undo log has fewer than 16 places",
        }
    }
}

impl fmt::Display for Refusal {
    fn fmt<W: fmt::Write>(&self, f: &mut fmt::Formatter<W>) -> fmt::Result {
        f.write_str(self.sentence())
    }
}
