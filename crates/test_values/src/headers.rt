//! Texts of headers that are too long for a list.

use cli_texts::headers_of;
use std::alloc::AllocError;

#[test]
fn cuts_texts(rt: HostRuntime) -> Result<(), AllocError> {
    let alloc = rt.alloc();
    let headers = headers_of(alloc, "Subject: ×".repeat(alloc, 1)?.as_bytes())?;
    assert_eq!(rt; headers.cut(alloc)?.subject.as_str(), "×");
    Ok(())
}
