//! Marks and seals as `sha256sum` gives them, and lines whose moments are those of `date -u`.

use record_history::{Deed, Event, LineFault, event_line, next_mark, read_line, seal_of};
use std::alloc::{AllocError, Global};
use std::test::Fail;

#[test]
fn marks_as_sha256sum_gives_them(rt: HostRuntime) -> Result<(), Fail> {
    let alloc = rt.alloc();
    let first = b"1 2031-01-01T09:30:00Z ann held audit 1 : order 12/3".as_slice();
    let mark = next_mark(alloc, b"", first)?;
    assert!(rt;
        mark.as_str() == "5e7c47d418734268924e140c633389c1162cf1757710aa387ee237ce191e294a"
    );
    let second = b"2 2031-01-01T09:30:00Z ann held audit 2".as_slice();
    let mark = next_mark(alloc, mark.as_bytes(), second)?;
    assert!(rt;
        mark.as_str() == "19102ab8ccfa9334d55d1f58bf9756317a3408e45ad510c1f88a9b60bee5c0fa"
    );
    Ok(())
}

#[test]
fn seals_as_sha256sum_gives_them(rt: HostRuntime) -> Result<(), Fail> {
    let alloc = rt.alloc();
    let seal = seal_of(alloc, b"Subject: a\r\n\r\nb\r\n")?;
    assert_eq!(rt; seal.octets, 17);
    assert!(rt;
        seal.sum.as_slice()
            == b"9c6c8eb5e1aadf9965b891e6b38b9eaaa685400b5a6f4e755ee91c0695514d09".as_slice()
    );
    let seal = seal_of(alloc, b"")?;
    assert_eq!(rt; seal.octets, 0);
    assert!(rt;
        seal.sum.as_slice()
            == b"e3b0c44298fc1c149afbf4c8996fb92427ae41e4649b934ca495991b7852b855".as_slice()
    );
    Ok(())
}

/// The line of a hold with a reason.
fn line_with(alloc: Global, reason: &[u8]) -> Result<Vec<u8>, AllocError> {
    let deed = Deed::Held {
        name: b"audit",
        number: 1,
    };
    let event = Event {
        moment: 0,
        who: b"ann",
        deed,
        notes: b"",
        reason,
    };
    event_line(alloc, 17, &event)
}

/// The line of a hold at a moment.
fn line_at(alloc: Global, moment: u64) -> Result<Vec<u8>, AllocError> {
    let deed = Deed::Held {
        name: b"audit",
        number: 1,
    };
    let event = Event {
        moment: moment % 253_402_300_800,
        who: b"ann",
        deed,
        notes: b"",
        reason: b"order 12/3",
    };
    event_line(alloc, 17, &event)
}

#[test]
fn moments_as_date_gives_them(rt: HostRuntime) -> Result<(), Fail> {
    let alloc = rt.alloc();
    let line = line_at(alloc, 0)?;
    assert!(rt;
        line.as_slice() == b"17 1970-01-01T00:00:00Z ann held audit 1 : order 12/3".as_slice()
    );
    let line = line_at(alloc, 951_782_400)?;
    assert!(rt;
        line.as_slice() == b"17 2000-02-29T00:00:00Z ann held audit 1 : order 12/3".as_slice()
    );
    let line = line_at(alloc, 1_709_209_845)?;
    assert!(rt;
        line.as_slice() == b"17 2024-02-29T12:30:45Z ann held audit 1 : order 12/3".as_slice()
    );
    let line = line_at(alloc, 4_107_542_400)?;
    assert!(rt;
        line.as_slice() == b"17 2100-03-01T00:00:00Z ann held audit 1 : order 12/3".as_slice()
    );
    let line = line_at(alloc, 253_402_300_799)?;
    assert!(rt;
        line.as_slice() == b"17 9999-12-31T23:59:59Z ann held audit 1 : order 12/3".as_slice()
    );
    Ok(())
}

/// Whether a line is read, or `None` where memory runs out.
fn is_read(alloc: Global, line: &[u8]) -> Option<bool> {
    match read_line(alloc, line) {
        Ok(_) => Some(true),
        Err(LineFault::NotALine) => Some(false),
        Err(LineFault::NoMemory) => None,
    }
}

#[test]
fn each_deed_is_read(rt: HostRuntime) {
    let alloc = rt.alloc();
    let lines = [
        b"17 2031-01-01T09:30:00Z ann held audit 1 : order 12/3".as_slice(),
        b"1 1970-01-01T00:00:00Z : held : 1 : a : b",
        b"2 2031-01-01T09:30:00Z ann released audit 4294967295 file=a.eml;dated=received",
        b"3 2031-01-01T09:30:00Z ann captured 5 on 2031-01-01 message 17 9c6c8eb5e1aadf9965b891e6b38b9eaaa685400b5a6f4e755ee91c0695514d09 by post rules e3b0c44298fc1c149afbf4c8996fb92427ae41e4649b934ca495991b7852b855 in finance/tax,rent",
        b"4 2031-01-01T09:30:00Z ann captured 7 on 2031-01-01 message 0 e3b0c44298fc1c149afbf4c8996fb92427ae41e4649b934ca495991b7852b855 in rent note=1 : late",
        b"5 2031-01-01T09:30:00Z ann destroyed 5 as due by 2031-01-01 (7 years destroy year-end)",
        b"6 2031-01-01T09:30:00Z ann replaced plan (root 30 days review; closed rent, permanent; unfiled)",
        b"6 2031-01-01T09:30:00Z ann found plan (root permanent; closed; closed closed; unfiled)",
        b"7 2031-01-01T09:30:00Z ann added class finance",
        b"17 2031-01-01T09:30:00Z ann refiled 17 to staff/reviewed",
        b"17 2031-01-01T09:30:00Z ann refiled 17 to staff note=1 : order 12/3",
        b"7 2031-01-01T09:30:00Z ann titled finance/tax 13:Tax documents 6:AO 147",
        b"7 2031-01-01T09:30:00Z ann titled rent 5: 1:2  0: note=1 : seen with ben",
        b"7 2031-01-01T09:30:00Z ann titled rent 0: 5: : no",
        b"7 2031-01-01T09:30:00Z ann made reasons required",
        b"7 2031-01-01T09:30:00Z ann made reasons required note=1 : order 12/3",
        b"8 2031-01-01T09:30:00Z ann made reasons optional : order 12/3",
        b"9 2031-01-01T09:30:00Z ann accepted findings",
        b"9 2031-01-01T09:30:00Z ann accepted findings note=1 : seen with ben",
        b"8 2031-01-01T09:30:00Z ann found record 5 of message 4 in rent on 2031-01-01 destroyed",
        b"8 2031-01-01T09:30:00Z ann found record 5 of message 4 in rent on 2031-01-01 live : x",
        b"9 2031-01-01T09:30:00Z ann found message 4 17 9c6c8eb5e1aadf9965b891e6b38b9eaaa685400b5a6f4e755ee91c0695514d09",
        b"9 9999-12-31T23:59:59Z ann found hold audit 4",
    ];
    for line in lines {
        assert!(rt; is_read(alloc, line).expect(&rt, "no memory"));
    }
}

#[test]
fn other_octets_are_no_line(rt: HostRuntime) {
    let alloc = rt.alloc();
    let lines = [
        b"".as_slice(),
        b"17 2031-01-01T09:30:00Z ann",
        b"17  2031-01-01T09:30:00Z ann held audit 1",
        b"17 2031-01-01T09:30:00Z ann held audit 1 ",
        b"17 2031-01-01T09:30:00Z ann held audit 1 : ",
        b"17 2031-01-01T09:30:00Z ann held audit  1",
        b"017 2031-01-01T09:30:00Z ann held audit 1",
        b"17 2031-01-01T09:30:00Z ann held audit 4294967296",
        b"17 2031-02-29T09:30:00Z ann held audit 1",
        b"17 2031-13-01T09:30:00Z ann held audit 1",
        b"17 2031-01-01T24:00:00Z ann held audit 1",
        b"17 2031-01-01 09:30:00Z ann held audit 1",
        b"17 1969-12-31T23:59:59Z ann held audit 1",
        b"17 2031-01-01T09:30:00Z ann refiled 17 to",
        b"17 2031-01-01T09:30:00Z ann refiled 4294967296 to rent",
        b"17 2031-01-01T09:30:00Z ann titled 1",
        b"17 2031-01-01T09:30:00Z ann titled rent 013:Tax documents 6:AO 147",
        b"17 2031-01-01T09:30:00Z ann titled rent 14:Tax documents 6:AO 147",
        b"17 2031-01-01T09:30:00Z ann titled rent 13:Tax documents 7:AO 147",
        b"17 2031-01-01T09:30:00Z ann titled rent 501:a 0:",
        b"17 2031-01-01T09:30:00Z ann made reasons",
        b"17 2031-01-01T09:30:00Z ann made reasons requiredly",
        b"17 2031-01-01T09:30:00Z ann made reasons optional ",
        b"17 2031-01-01T09:30:00Z ann accepted finding",
        b"17 2031-01-01T09:30:00Z ann destroyed 5 as due by 2031-01-01 (0 years destroy)",
        b"6 2031-01-01T09:30:00Z ann replaced plan (root permanent;unfiled)",
    ];
    for line in lines {
        assert!(rt; !is_read(alloc, line).expect(&rt, "no memory"));
    }
}

#[test]
fn lines_that_no_archive_notes_are_no_lines(rt: HostRuntime) {
    let alloc = rt.alloc();
    let lines = [
        b"17 2031-01-01T09:30:00Z ann held audit 1 : order\n12/3".as_slice(),
        b"17 2031-01-01T09:30:00Z ann held audit 1 : order\x7f12/3",
        b"17 2031-01-01T09:30:00Z ann held audit 1 note=1\n",
        b"17 2031-01-01T09:30:00Z ann held au\x1bdit 1",
        b"17 2031-01-01T09:30:00Z an\xe9 held audit 1",
        b"17 2031-01-01T09:30:00Z  held audit 1",
        b"17 2031-01-01T09:30:00Z ann added class Finance",
        b"17 2031-01-01T09:30:00Z ann titled rent 5:a\r\nbc 0:",
        b"6 2031-01-01T09:30:00Z ann found plan (root permanent; Rent; unfiled)",
        b"9 2031-01-01T09:30:00Z ann found message 4 17 9c6c8eb5e1aadf9965b891e6b38b9eaaa685400b5a6f4e755ee91c0695514d0",
        b"9 2031-01-01T09:30:00Z ann found message 4 17 9C6C8EB5E1AADF9965B891E6B38B9EAAA685400B5A6F4E755EE91C0695514D09",
    ];
    for line in lines {
        assert!(rt; !is_read(alloc, line).expect(&rt, "no memory"));
    }
}

#[test]
fn a_reason_has_at_most_500_octets(rt: HostRuntime) -> Result<(), Fail> {
    let alloc = rt.alloc();
    let reason = [b'a'; 501];
    let line = line_with(alloc, &reason[..500])?;
    assert!(rt; is_read(alloc, line.as_slice()).expect(&rt, "no memory"));
    let line = line_with(alloc, &reason)?;
    assert!(rt; !is_read(alloc, line.as_slice()).expect(&rt, "no memory"));
    Ok(())
}
