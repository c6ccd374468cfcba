// The weekdays, their numbers, and the weekday of a day.
ghost use Rattle.std.specs.Prelude.{◌≡◌, ◌≤◌, ℕ, ◌%◌};
ghost use Rattle.calendar.specs.Weekdays.{weekday_number};

#[derive(Clone, Copy, PartialEq, Eq, Debug)]
pub enum Weekday {
    Monday,
    Tuesday,
    Wednesday,
    Thursday,
    Friday,
    Saturday,
    Sunday,
}

// A weekday's number, from Monday on as 0.
impl From<Weekday> for u8 {
    ghost from_gives = { λ weekday number. (number ≡ weekday_number weekday) × (number ≤ 6) };

    fn from(weekday: Weekday) -> u8 {
        weekday as u8
    }
}

// Day 0 is a Monday, and the weekdays go round from there. No derive makes an enum of a number.
pub fn weekday_of(day: u32) -> Weekday
    ensures { weekday_number result ≡ day % 7 }
{
    match day % 7 {
        0 => Weekday::Monday,
        1 => Weekday::Tuesday,
        2 => Weekday::Wednesday,
        3 => Weekday::Thursday,
        4 => Weekday::Friday,
        5 => Weekday::Saturday,
        _ => Weekday::Sunday,
    }
}
