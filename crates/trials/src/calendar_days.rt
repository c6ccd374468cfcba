// Days and dates at the ends of months, centuries and the calendar.
use calendar::date::Date;
use calendar::days::{LAST_DAY, date_of, day_of};
use calendar::months::month_length;
use calendar::starts::{Moment, STARTS_END, moment_of, start_of};
use calendar::weekdays::{Weekday, weekday_of};

#[test]
fn days_have_their_dates(rt: HostRuntime) {
    let cases: [(u16, u8, u8, u32); 20] = [
        (1900, 1, 1, 0),
        (1900, 1, 31, 30),
        (1900, 2, 28, 58),
        (1900, 3, 1, 59),
        (1900, 12, 31, 364),
        (1901, 1, 1, 365),
        (1904, 2, 29, 1519),
        (1904, 3, 1, 1520),
        (1999, 12, 31, 36523),
        (2000, 1, 1, 36524),
        (2000, 2, 28, 36582),
        (2000, 2, 29, 36583),
        (2000, 3, 1, 36584),
        (2024, 2, 29, 45349),
        (2024, 12, 31, 45655),
        (2025, 1, 1, 45656),
        (2100, 2, 28, 73107),
        (2100, 3, 1, 73108),
        (2199, 12, 30, 109571),
        (2199, 12, 31, 109572),
    ];
    for (year, month, day, number) in cases {
        assert_eq!(rt; day_of(Date { year, month, day }), Some(number));
        assert_eq!(rt; date_of(number), Some(Date { year, month, day }));
    }
    assert_eq!(rt; date_of(LAST_DAY + 1), None);
}

#[test]
fn other_dates_do_not_exist(rt: HostRuntime) {
    let cases: [(u16, u8, u8); 11] = [
        (1899, 12, 31),
        (2200, 1, 1),
        (1900, 2, 29),
        (2100, 2, 29),
        (2023, 2, 29),
        (2024, 2, 30),
        (2024, 4, 31),
        (2024, 0, 1),
        (2024, 13, 1),
        (2024, 1, 0),
        (2024, 1, 32),
    ];
    for (year, month, day) in cases {
        assert_eq!(rt; day_of(Date { year, month, day }), None);
    }
}

#[test]
fn months_have_their_lengths(rt: HostRuntime) {
    assert_eq!(rt; month_length(2000, 2), Some(29));
    assert_eq!(rt; month_length(2100, 2), Some(28));
    assert_eq!(rt; month_length(2024, 12), Some(31));
    assert_eq!(rt; month_length(2024, 0), None);
    assert_eq!(rt; month_length(2024, 13), None);
}

#[test]
fn weekdays_go_round(rt: HostRuntime) {
    assert_eq!(rt; weekday_of(0), Weekday::Monday);
    assert_eq!(rt; weekday_of(45296), Weekday::Sunday);
    assert_eq!(rt; weekday_of(LAST_DAY), Weekday::Tuesday);
}

#[test]
fn starts_have_their_moments(rt: HostRuntime) {
    let last = Moment {
        day: LAST_DAY,
        clock: 1439,
    };
    assert_eq!(rt; start_of(last), Some(STARTS_END - 1));
    assert_eq!(rt; moment_of(STARTS_END - 1), Some(last));
    assert_eq!(rt; moment_of(STARTS_END), None);
    assert_eq!(rt;
        start_of(Moment {
            day: 0,
            clock: 1440,
        }),
        None
    );
    assert_eq!(rt;
        start_of(Moment {
            day: LAST_DAY + 1,
            clock: 0,
        }),
        None
    );
}
