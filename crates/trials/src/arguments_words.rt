// Both bounds of every argument, and the messages of faults.
ghost use Rattle.std.specs.Prelude.{◌<◌};

use arguments::faults::{Argument, Fault};
use arguments::jobs::read;
use refusal::Refusal;
use std::test::Fail;

const LONG: &[u8] = b"0123456789abcdefghijklmnopqrstuvwxyz0123456789abcdefghijklmnopqrs";

// The argument that a command line is refused for, with the refusal's number, or none where it is taken.
fn refused(words: &[&[u8]]) -> Result<Option<(Argument, u8)>, Fail> {
    // a match: the refusal is an answer here, and only the other faults fail the test
    match read(words) {
        Ok(_) => Ok(None),
        Err(Fault::Refused(argument, refusal)) => Ok(Some((argument, refusal.number()))),
        Err(_) => Err(Fail::new("too few or too many words")),
    }
}

// The number of the refusal of a command line with this word at a place, or none where it is taken.
fn judged(place: usize, word: &[u8]) -> Result<Option<u8>, Fail>
    requires { place < 6 }
{
    let mut words: [&[u8]; 6] = [
        b"evensong",
        b"R3/20240107T183000/P14D",
        b"45",
        b"Evensong",
        b"20240101",
        b"20240204",
    ];
    words[place] = word;
    Ok(refused(&words)?.map(|(_, number)| number))
}

#[test]
fn uids_and_texts(rt: HostRuntime) -> Result<(), Fail> {
    assert_eq!(rt; judged(0, b"")?, Some(8));
    assert_eq!(rt; judged(0, b"!")?, None);
    assert_eq!(rt; judged(0, b"~")?, None);
    assert_eq!(rt; judged(0, b" ")?, Some(8));
    assert_eq!(rt; judged(0, b"a,b")?, Some(8));
    assert_eq!(rt; judged(0, b"a;b")?, Some(8));
    assert_eq!(rt; judged(0, b"a:b")?, Some(8));
    assert_eq!(rt; judged(0, b"a\\b")?, Some(8));
    assert_eq!(rt; judged(0, b"\x7f")?, Some(8));
    assert_eq!(rt; judged(0, b"\x80")?, Some(8));
    assert_eq!(rt; judged(0, &LONG[0..64])?, None);
    assert_eq!(rt; judged(0, &LONG[0..65])?, Some(8));
    assert_eq!(rt; judged(3, b"")?, Some(8));
    assert_eq!(rt; judged(3, b" ")?, None);
    assert_eq!(rt; judged(3, b"\x1f")?, Some(8));
    assert_eq!(rt; judged(3, b"\x7f")?, Some(8));
    assert_eq!(rt; judged(3, b"\x80\xff, ;:")?, None);
    assert_eq!(rt; judged(3, &LONG[0..60])?, None);
    assert_eq!(rt; judged(3, &LONG[0..61])?, Some(8));
    Ok(())
}

#[test]
fn durations_and_days(rt: HostRuntime) -> Result<(), Fail> {
    assert_eq!(rt; judged(2, b"0")?, None);
    assert_eq!(rt; judged(2, b"1440")?, None);
    assert_eq!(rt; judged(2, b"1441")?, Some(8));
    assert_eq!(rt; judged(2, b"01440")?, None);
    assert_eq!(rt; judged(2, b"001440")?, Some(7));
    assert_eq!(rt; judged(2, b"")?, Some(7));
    assert_eq!(rt; judged(2, b"4 5")?, Some(7));
    assert_eq!(rt; judged(4, b"19000101")?, None);
    assert_eq!(rt; judged(4, b"18991231")?, Some(8));
    assert_eq!(rt; judged(4, b"2024011")?, Some(7));
    assert_eq!(rt; judged(4, b"2024010l")?, Some(7));
    assert_eq!(rt; judged(5, b"21991231")?, None);
    assert_eq!(rt; judged(5, b"22000101")?, Some(8));
    assert_eq!(rt; judged(5, b"20240230")?, Some(8));
    assert_eq!(rt; judged(5, b"20240101")?, None);
    assert_eq!(rt; judged(5, b"20231231")?, Some(24));
    Ok(())
}

#[test]
fn intervals(rt: HostRuntime) -> Result<(), Fail> {
    assert_eq!(rt; judged(1, b"R1/19000101T000000/P1D")?, None);
    assert_eq!(rt; judged(1, b"R10000/21991231T235900/P999D")?, None);
    assert_eq!(rt; judged(1, b"R0/20240107T183000/P14D")?, Some(8));
    assert_eq!(rt; judged(1, b"R10001/20240107T183000/P14D")?, Some(8));
    assert_eq!(rt; judged(1, b"R3/20240107T183000/P0D")?, Some(8));
    assert_eq!(rt; judged(1, b"R3/20240107T183000/P1000D")?, Some(8));
    assert_eq!(rt; judged(1, b"R3/20240107T240000/P14D")?, Some(8));
    assert_eq!(rt; judged(1, b"R3/20240107T186000/P14D")?, Some(8));
    assert_eq!(rt; judged(1, b"R3/20230229T183000/P14D")?, Some(8));
    assert_eq!(rt; judged(1, b"R3/20240107T183001/P14D")?, Some(7));
    assert_eq!(rt; judged(1, b"R0/20240107T183001/P0D")?, Some(7));
    Ok(())
}

#[test]
fn forms_of_intervals(rt: HostRuntime) -> Result<(), Fail> {
    assert_eq!(rt; judged(1, b"")?, Some(7));
    assert_eq!(rt; judged(1, b"R3")?, Some(7));
    assert_eq!(rt; judged(1, b"R3/20240107T183000")?, Some(7));
    assert_eq!(rt; judged(1, b"3/20240107T183000/P14D")?, Some(7));
    assert_eq!(rt; judged(1, b"r3/20240107T183000/P14D")?, Some(7));
    assert_eq!(rt; judged(1, b"R/20240107T183000/P14D")?, Some(7));
    assert_eq!(rt; judged(1, b"R3/20240107t183000/P14D")?, Some(7));
    assert_eq!(rt; judged(1, b"R3/20240107T1830/P14D")?, Some(7));
    assert_eq!(rt; judged(1, b"R3/20240107T183000/P14W")?, Some(7));
    assert_eq!(rt; judged(1, b"R3/20240107T183000/P14DD")?, Some(7));
    assert_eq!(rt; judged(1, b"R3/20240107T183000/14D")?, Some(7));
    assert_eq!(rt; judged(1, b"R3/20240107T183000/P14D/")?, Some(7));
    Ok(())
}

// The number of the refusal of a rule from 31 January 2024 at 9:00, or none where it is taken.
fn ruled(rule: &[u8]) -> Result<Option<u8>, Fail> {
    let words: [&[u8]; 7] = [
        b"e",
        b"20240131T090000",
        rule,
        b"45",
        b"E",
        b"20240101",
        b"20241231",
    ];
    match refused(&words)? {
        None => Ok(None),
        Some((Argument::Rule, number)) => Ok(Some(number)),
        Some(_) => Err(Fail::new("another argument is refused")),
    }
}

#[test]
fn rules(rt: HostRuntime) -> Result<(), Fail> {
    assert_eq!(rt; ruled(b"FREQ=MONTHLY;COUNT=3")?, None);
    assert_eq!(rt;
        ruled(b"COUNT=10000;FREQ=DAILY;INTERVAL=999;WKST=SU")?,
        None
    );
    assert_eq!(rt; ruled(b"FREQ=YEARLY;BYDAY=-1WE,+53MO,5WE;BYMONTH=1")?, None);
    assert_eq!(rt; ruled(b"FREQ=YEARLY;UNTIL=20240131T090000")?, None);
    assert_eq!(rt; ruled(b"")?, Some(9));
    assert_eq!(rt; ruled(b"COUNT=3")?, Some(9));
    assert_eq!(rt; ruled(b"FREQ=HOURLY")?, Some(9));
    assert_eq!(rt; ruled(b"FREQ=DAILY;")?, Some(9));
    assert_eq!(rt; ruled(b"FREQ=DAILY;FREQ=DAILY")?, Some(9));
    assert_eq!(rt; ruled(b"FREQ=DAILY;BYSETPOS=1")?, Some(9));
    assert_eq!(rt; ruled(b"FREQ=DAILY;BYMONTH=1,")?, Some(9));
    assert_eq!(rt; ruled(b"FREQ=DAILY;BYMONTH=+1")?, Some(9));
    assert_eq!(rt; ruled(b"FREQ=DAILY;BYMONTHDAY=031")?, Some(9));
    assert_eq!(rt; ruled(b"FREQ=DAILY;UNTIL=20240201")?, Some(9));
    Ok(())
}

#[test]
fn bounds_of_rules(rt: HostRuntime) -> Result<(), Fail> {
    assert_eq!(rt; ruled(b"FREQ=DAILY;INTERVAL=0")?, Some(8));
    assert_eq!(rt; ruled(b"FREQ=DAILY;INTERVAL=1000")?, Some(8));
    assert_eq!(rt; ruled(b"FREQ=DAILY;COUNT=99999999999999999999")?, Some(8));
    assert_eq!(rt; ruled(b"FREQ=DAILY;UNTIL=20240230T090000")?, Some(8));
    assert_eq!(rt;
        ruled(b"FREQ=DAILY;BYMONTH=1,2,3,4,5,6,7,8,9,10,11,12")?,
        None
    );
    assert_eq!(rt;
        ruled(b"FREQ=DAILY;BYMONTH=1,2,3,4,5,6,7,8,9,10,11,12,1")?,
        Some(8)
    );
    assert_eq!(rt; ruled(b"FREQ=DAILY;BYMONTH=13")?, Some(8));
    assert_eq!(rt; ruled(b"FREQ=DAILY;BYMONTHDAY=-31,0")?, Some(8));
    assert_eq!(rt; ruled(b"FREQ=MONTHLY;BYDAY=54WE")?, Some(8));
    assert_eq!(rt; ruled(b"FREQ=WEEKLY;BYDAY=1WE")?, Some(10));
    assert_eq!(rt; ruled(b"FREQ=DAILY;BYDAY=-1WE")?, Some(10));
    assert_eq!(rt; ruled(b"FREQ=WEEKLY;BYMONTHDAY=31")?, Some(10));
    assert_eq!(rt;
        ruled(b"FREQ=DAILY;COUNT=1;UNTIL=20240201T090000")?,
        Some(10)
    );
    assert_eq!(rt; ruled(b"FREQ=DAILY;UNTIL=20240131T085900")?, Some(11));
    assert_eq!(rt; ruled(b"FREQ=WEEKLY;BYDAY=TU")?, Some(11));
    Ok(())
}

#[test]
fn too_few_words(rt: HostRuntime) -> Result<(), Fail> {
    let words: [&[u8]; 5] = [b"e", b"R3/20240107T183000/P14D", b"45", b"E", b"20240101"];
    match read(&words) {
        Err(Fault::Missing(argument)) => {
            assert_eq!(rt; argument, Argument::Last);
            Ok(())
        },
        _ => Err(Fail::new("taken")),
    }
}

#[test]
fn messages(rt: HostRuntime) -> Result<(), Fail> {
    let fault = Fault::Refused(Argument::Duration, Refusal::OutOfBounds);
    let text = format!(in rt.alloc(); "{fault}")?;
    assert!(rt;
        text.as_str() == "the duration is out of bounds: 0 to 1440 minutes, in one to five digits"
    );
    let missing = Fault::Missing(Argument::First);
    let other = format!(in rt.alloc(); "{missing}")?;
    assert!(rt;
        other.as_str() == "the first day is missing: yyyymmdd, a date from 19000101 to 21991231"
    );
    Ok(())
}
