// The agenda of one event at the edges of its window and of its page.
use calendar::windows::Window;
use event::events::Event;
use page::pages::Page;
use refusal::Refusal;
use series::clocks::Clock;
use series::durations::Duration;
use series::records::Series;
use series::texts::Text;
use series::uids::Uid;
use source::intervals::Interval;
use std::test::Fail;

// Evensong on 7 and 21 January and 4 February 2024, at 18:30.
fn evensong() -> Result<Event<Interval>, Refusal> {
    Ok(Event {
        uid: Uid::new(b"e")?,
        series: Series {
            source: Interval::new(45_296, 14, 3)?,
            clock: Clock::new(1110)?,
            duration: Duration::new(45)?,
            text: Text::new(b"Evensong")?,
        },
    })
}

// What the agenda of a window answers on a page of so many octets, and the length that it leaves.
fn asked(
    from: u32,
    end: u32,
    room: usize,
    start: usize,
) -> Result<(Result<usize, Refusal>, usize), Refusal> {
    let mut octets = [b'.'; 100];
    let mut page = Page {
        octets: &mut octets[..room.min(100)],
        len: start,
    };
    let window = Window { from, end };
    let answer = evensong()?.agenda(window, &mut page);
    Ok((answer, page.len))
}

#[test]
fn the_window_at_both_ends(rt: HostRuntime) -> Result<(), Fail> {
    let first = 45_296 * 1440 + 1110;
    let last = 45_324 * 1440 + 1110;
    assert_eq!(rt; asked(first, last, 100, 0)?, (Ok(2), 56));
    assert_eq!(rt; asked(first + 1, last, 100, 0)?, (Ok(1), 28));
    assert_eq!(rt; asked(first + 1, last + 1, 100, 0)?, (Ok(2), 56));
    assert_eq!(rt; asked(0, 157_785_120, 100, 0)?, (Ok(3), 84));
    assert_eq!(rt; asked(first, first, 100, 0)?, (Ok(0), 0));
    assert_eq!(rt; asked(157_785_120, 157_785_120, 100, 0)?, (Ok(0), 0));
    Ok(())
}

#[test]
fn refusals_in_order(rt: HostRuntime) -> Result<(), Fail> {
    assert_eq!(rt; asked(1, 0, 100, 0)?, (Err(Refusal::BadWindow), 0));
    assert_eq!(rt;
        asked(0, 157_785_121, 100, 0)?,
        (Err(Refusal::BadWindow), 0)
    );
    assert_eq!(rt; asked(1, 0, 10, 11)?, (Err(Refusal::BadWindow), 11));
    assert_eq!(rt; asked(0, 0, 10, 11)?, (Err(Refusal::PageFull), 11));
    assert_eq!(rt; asked(0, 0, 10, 10)?, (Ok(0), 10));
    Ok(())
}

#[test]
fn a_page_that_is_too_short(rt: HostRuntime) -> Result<(), Fail> {
    assert_eq!(rt; asked(0, 157_785_120, 84, 0)?, (Ok(3), 84));
    assert_eq!(rt; asked(0, 157_785_120, 83, 0)?, (Err(Refusal::PageFull), 0));
    assert_eq!(rt; asked(0, 157_785_120, 100, 16)?, (Ok(3), 100));
    assert_eq!(rt;
        asked(0, 157_785_120, 100, 17)?,
        (Err(Refusal::PageFull), 17)
    );
    Ok(())
}
