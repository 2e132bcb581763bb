//! Octets of a charset, as text.

use mail_charsets::{Charset, decode};
use std::alloc::AllocError;

#[test]
fn decodes_by_table(rt: HostRuntime) -> Result<(), AllocError> {
    let alloc = rt.alloc();
    let Some(charset) = Charset::named(b"Windows-1252*de") else {
        return Ok(());
    };
    let decoded = decode(alloc, charset, b"a\x80\xFC\x81")?;
    assert_eq!(rt; decoded.text.as_str(), "a€ü\u{FFFD}");
    assert_eq!(rt; decoded.unread, 1);
    Ok(())
}
