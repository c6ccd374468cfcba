// Pages that are one octet too short, exactly full, and with their length past the end.
use calendar::date::Date;
use page::pages::Page;
use refusal::Refusal;

const DAY: Date = Date {
    year: 2024,
    month: 1,
    day: 7,
};

#[test]
fn a_piece_at_the_end(rt: HostRuntime) {
    let mut octets = [b'.'; 6];
    let mut page = Page {
        octets: &mut octets,
        len: 3,
    };
    assert_eq!(rt; page.put(b"abcd"), Err(Refusal::PageFull));
    assert_eq!(rt; page.len, 3);
    assert!(rt; &*page.octets == b"......".as_slice());
    assert_eq!(rt; page.put(b"abc"), Ok(()));
    assert_eq!(rt; page.len, 6);
    assert!(rt; &*page.octets == b"...abc".as_slice());
    assert_eq!(rt; page.put(b""), Ok(()));
    assert_eq!(rt; page.put(b"d"), Err(Refusal::PageFull));
}

#[test]
fn a_length_past_the_end(rt: HostRuntime) {
    let mut octets = [b'.'; 6];
    let mut page = Page {
        octets: &mut octets,
        len: 7,
    };
    assert_eq!(rt; page.put(b""), Err(Refusal::PageFull));
    assert_eq!(rt; page.put_all(&[b""]), Err(Refusal::PageFull));
    assert_eq!(rt; page.len, 7);
    assert_eq!(rt; octets, *b"......");
}

#[test]
fn numbers(rt: HostRuntime) {
    let mut octets = [b'.'; 20];
    let mut page = Page::new(&mut octets);
    assert_eq!(rt; page.put_decimal(0), Ok(()));
    assert_eq!(rt; page.put_decimal(1440), Ok(()));
    assert_eq!(rt; page.put_date(DAY), Ok(()));
    assert_eq!(rt; page.put_clock(1110), Ok(()));
    assert_eq!(rt; page.put_clock(0), Err(Refusal::PageFull));
    assert_eq!(rt; page.len, 17);
    assert_eq!(rt; octets, *b"01440202401071830...");
}

#[test]
fn a_line_that_just_fits(rt: HostRuntime) {
    let mut octets = [b'.'; 23];
    let mut page = Page::new(&mut octets);
    assert_eq!(rt;
        page.put_line(DAY, 1110, 45, b"e", b"Even"),
        Err(Refusal::PageFull)
    );
    assert_eq!(rt; page.len, 0);
    assert_eq!(rt; page.put_line(DAY, 1110, 45, b"e", b"Eve"), Ok(()));
    assert_eq!(rt; page.len, 23);
    assert_eq!(rt; octets, *b"20240107,1830,45,e,Eve\n");
}

#[test]
fn a_summary(rt: HostRuntime) {
    let mut octets = [b'.'; 42];
    let mut page = Page::new(&mut octets);
    assert_eq!(rt; page.put_summary(1, DAY, DAY), Ok(()));
    assert_eq!(rt; octets, *b"printed 1 lines from 20240107 to 20240107\n");
}
