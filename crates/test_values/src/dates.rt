//! The dates of RFC 5322, appendix A, whose moments are those of `date -u`, and dates of messages.

use mail_dates::{Dated, Dating, date_message, moment_of};
use std::test::Fail;

#[test]
fn reads_the_dates_of_the_rfc(rt: HostRuntime) -> Result<(), Fail> {
    let alloc = rt.alloc();
    let dates: [(&[u8], Option<u64>); 7] = [
        (b" Fri, 21 Nov 1997 09:55:06 -0600", Some(880_127_706)),
        (b" 21 Nov 97 09:55:06 GMT", Some(880_106_106)),
        (
            b" Fri, 21 Nov 1997 09(comment):   55  :  06 -0600",
            Some(880_127_706),
        ),
        (b" Tue, 1 Jul 2003 10:52:37 +0200", Some(1_057_049_557)),
        (
            b" Thu,\r\n      13\r\n        Feb\r\n          1969\r\n      23:32\r\n               -0330 (Newfoundland Time)",
            None,
        ),
        (b" 8 Jan 09\r\n 23:30 EST (once more)", Some(1_231_475_400)),
        (b" Fri, 21 Nov 1997 09:55:06", None),
    ];
    for (text, moment) in &dates {
        assert_eq!(rt; moment_of(alloc, *text)?, *moment);
    }
    Ok(())
}

#[test]
fn dates_a_message(rt: HostRuntime) -> Result<(), Fail> {
    let alloc = rt.alloc();
    let message =
        b"Received: from a; by b; 21 Nov 97 09:55:06 GMT\nRECEIVED: no\nDate: none\n\nDate: 1 Jan 2003\n";
    let now = 880_106_106;
    let dated = date_message(alloc, message, Dating::Received, now)?;
    assert!(rt; matches!(dated, Dated::Moment(moment) if moment == now));
    let dated = date_message(alloc, message, Dating::Received, now - 1)?;
    assert!(rt; matches!(dated, Dated::ToCome(moment) if moment == now));
    let dated = date_message(alloc, message, Dating::Date, now)?;
    assert!(rt; matches!(dated, Dated::NoDate));
    let dated = date_message(alloc, b"A: b\n", Dating::Date, now)?;
    assert!(rt; matches!(dated, Dated::NoField));
    let dated = date_message(alloc, message, Dating::At(7), now)?;
    assert!(rt; matches!(dated, Dated::Moment(7)));
    Ok(())
}
