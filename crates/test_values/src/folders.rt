//! Names and sheets that are read back, and volumes that are begun.

use cli_volumes::{
    Seen, Sheet, VolumeFolder, read_sheet, sheet_text, volume_for_capture, volume_name, volume_of,
};
use std::alloc::AllocError;

#[test]
fn names_are_read_back(rt: HostRuntime) -> Result<(), AllocError> {
    let name = volume_name(rt.alloc(), 17)?;
    assert_eq!(rt; name.as_str(), "0017.db");
    assert_eq!(rt; volume_of(name.as_bytes()), Some(17));
    assert!(rt; volume_of(b"0000.db").is_none() && volume_of(b"00017.db").is_none());
    assert!(rt; volume_of(b"0017.db-wal").is_none() && volume_of(b"17.db").is_none());
    Ok(())
}

#[test]
fn a_sheet_is_read_as_it_is_spelled(rt: HostRuntime) -> Result<(), AllocError> {
    let sheet = Sheet {
        size: 33_554_432,
        begun: 5,
    };
    let text = sheet_text(rt.alloc(), sheet)?;
    assert_eq!(rt;
        text.as_str(),
        "mailfile volumes 1\nsize 33554432\nbegun 5\n"
    );
    let read = read_sheet(rt.alloc(), text.as_bytes())?;
    assert!(rt; matches!(read, Some(sheet) if sheet.size == 33_554_432 && sheet.begun == 5));
    let longer = read_sheet(rt.alloc(), b"mailfile volumes 1\nsize 1048576\nbegun 5\n\n")?;
    let other = read_sheet(rt.alloc(), b"mailfile volumes 2\nsize 1048576\nbegun 5\n")?;
    let least = read_sheet(rt.alloc(), b"mailfile volumes 1\nsize 1048576\nbegun 5\n")?;
    let less = read_sheet(rt.alloc(), b"mailfile volumes 1\nsize 1048575\nbegun 5\n")?;
    assert!(rt; longer.is_none() && other.is_none() && least.is_some() && less.is_none());
    Ok(())
}

/// A folder that is none.
#[derive(Drop)]
struct Fake {
    seen: Seen,
    /// Whether another program begins a volume before the lock is taken.
    is_shared: bool,
    /// How many volumes were begun here.
    count: u32,
}

impl Fake {
    /// With a volume that is over its size.
    fn over(is_shared: bool) -> Fake {
        Fake {
            seen: Seen {
                last: 3,
                octets: 11,
                begun: 3,
                size: 10,
            },
            is_shared,
            count: 0,
        }
    }
}

impl VolumeFolder for Fake {
    type Fault = AllocError;

    ghost made = { λ _ _. Unit {0} };

    fn look(&mut self) -> Result<Seen, AllocError> {
        Ok(self.seen)
    }

    fn lock(&mut self) -> Result<(), AllocError> {
        if self.is_shared {
            self.seen.last = 4;
            self.seen.octets = 0;
            self.seen.begun = 4;
        }
        Ok(())
    }

    fn begin(&mut self, volume: u32) -> Result<(), AllocError> {
        self.seen.last = volume;
        self.seen.octets = 0;
        self.count = self.count.saturating_add(1);
        Ok(())
    }

    fn note(&mut self, volume: u32) -> Result<(), AllocError> {
        self.seen.begun = volume;
        Ok(())
    }

    fn unlock(&mut self) {}
}

#[test]
fn two_programs_begin_one_volume(rt: HostRuntime) -> Result<(), AllocError> {
    let mut alone = Fake::over(false);
    assert_eq!(rt; volume_for_capture(&mut alone)?, 4);
    assert!(rt; alone.count == 1 && alone.seen.begun == 4);
    assert_eq!(rt; volume_for_capture(&mut alone)?, 4);
    let mut shared = Fake::over(true);
    assert_eq!(rt; volume_for_capture(&mut shared)?, 4);
    assert_eq!(rt; shared.count, 0);
    Ok(())
}
