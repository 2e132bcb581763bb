//! Intakes of a Maildir in memory.

use mail_intake::{Listing, Mailroom, Memory, Reason, Refusal, Taken, Told, take_in};
use std::alloc::{AllocError, Global};

/// Why a disk takes nothing more.
#[derive(Clone, Copy)]
struct DiskFull;

/// A Maildir in memory, whose messages have the words by which it is said what becomes of them. It notes each call.
#[derive(Drop)]
struct Few {
    alloc: Global,
    fresh: Vec<(&'static str, &'static str)>,
    told: Vec<Told>,
    said: String,
}

impl Few {
    fn with(alloc: Global, messages: &[(&'static str, &'static str)]) -> Result<Few, AllocError> {
        Ok(Few {
            alloc,
            fresh: Vec::from_slice(alloc, messages)?,
            told: Vec::new(alloc),
            said: String::new(alloc),
        })
    }

    fn note(&mut self, call: &'static str, name: &str) {
        let _ = self.said.push_str(call);
        let _ = self.said.push_str(name);
        let _ = self.said.push_str("; ");
    }

    fn words(&self, words: &'static str) -> String {
        String::from_str(self.alloc, words).unwrap_or(String::new(self.alloc))
    }
}

impl Mailroom for Few {
    type Fault = DiskFull;

    ghost made = { λ _ _. Unit {0} };

    ghost has = { λ _ _. ⊥ };

    fn list(&mut self) -> Result<Listing, DiskFull> {
        let mut names = Vec::new(self.alloc);
        for (name, _) in &self.fresh {
            if let Ok(name) = String::from_str(self.alloc, name) {
                let _ = names.push(name);
            }
        }
        Ok(Listing { names, nameless: 1 })
    }

    fn read(&mut self, name: &str) -> Result<Vec<u8>, Reason> {
        self.note("read ", name);
        let found = self.fresh.iter().find(|mail| mail.0 == name);
        match found {
            Some((_, "folder")) => Err(Reason::Unfit(self.words("a folder"))),
            Some((_, text)) => {
                Vec::from_slice(self.alloc, text.as_bytes()).map_err(|_| Reason::NoMemory)
            }
            None => Err(Reason::Unfit(self.words("gone"))),
        }
    }

    fn capture(&mut self, name: &str, octets: Vec<u8>) -> Result<Taken, Refusal<DiskFull>> {
        self.note("capture ", name);
        match octets.as_slice() {
            b"fault" => Err(Refusal::Stays(Reason::GivenUp(self.words("fault 1")))),
            b"full" => Err(Refusal::Ends(DiskFull)),
            b"advertisement" => Ok(Taken::Discarded),
            _ => Ok(Taken::Captured),
        }
    }

    fn file_away(&mut self, name: &str) -> Result<(), DiskFull> {
        self.note("move ", name);
        match self.fresh.iter().position(|mail| mail.0 == name) {
            Some(place) if self.fresh[place].1 != "fixed" => {
                self.fresh.remove(place);
                Ok(())
            }
            _ => Err(DiskFull),
        }
    }

    fn tell(&mut self, name: &str, reason: &Reason) {
        self.note("tell ", name);
        self.note("", reason.words());
    }

    fn remember(&mut self, name: &str, reason: Reason) {
        let name = Vec::from_slice(self.alloc, name.as_bytes());
        let words = Vec::from_slice(self.alloc, reason.words().as_bytes());
        if let (Ok(name), Ok(words)) = (name, words) {
            let _ = self.told.push(Told { name, words });
        }
    }

    fn settle(&mut self) -> Result<(), DiskFull> {
        self.note("settle", "");
        Ok(())
    }
}

/// What an intake of a Maildir on a day notes, and what it remembers; and how many messages it took, and how many stay.
fn noted(
    few: &mut Few,
    memory: &Memory,
    day: u64,
) -> Result<(Memory, String, usize, u64), AllocError> {
    let alloc = few.alloc;
    few.said = String::new(alloc);
    few.told = Vec::new(alloc);
    let (taken, stay) = match take_in(few, memory, day) {
        Ok(taking) => (taking.tally.taken, taking.tally.staying(taking.nameless)),
        Err(_) => (0, 0),
    };
    let told = std::mem::replace(&mut few.told, Vec::new(alloc));
    let said = std::mem::replace(&mut few.said, String::new(alloc));
    Ok((Memory { day, told }, said, taken, stay))
}

#[test]
fn takes_each_message_once(rt: HostRuntime) -> Result<(), AllocError> {
    let alloc = rt.alloc();
    let mut few = Few::with(
        alloc,
        &[
            ("a", "tax"),
            ("b", "folder"),
            ("c", "fault"),
            ("d", "advertisement"),
        ],
    )?;
    let (memory, said, taken, stay) = noted(&mut few, &Memory::none(alloc), 100)?;
    assert_eq!(rt;
        said.as_str(),
        "read a; capture a; move a; read b; tell b; a folder; read c; capture c; tell c; fault 1; read d; capture d; move d; settle; "
    );
    assert_eq!(rt; (taken, stay), (2, 3));
    let (memory, said, taken, stay) = noted(&mut few, &memory, 100)?;
    assert_eq!(rt; said.as_str(), "read b; read c; capture c; settle; ");
    assert_eq!(rt; (taken, stay), (0, 3));
    let (_, said, _, _) = noted(&mut few, &memory, 101)?;
    assert_eq!(rt;
        said.as_str(),
        "read b; tell b; a folder; read c; capture c; tell c; fault 1; settle; "
    );
    Ok(())
}

#[test]
fn ends_where_it_cannot_go_on(rt: HostRuntime) -> Result<(), AllocError> {
    let alloc = rt.alloc();
    let mut few = Few::with(alloc, &[("a", "full"), ("b", "tax")])?;
    let (_, said, taken, _) = noted(&mut few, &Memory::none(alloc), 100)?;
    assert_eq!(rt; said.as_str(), "read a; capture a; settle; ");
    assert_eq!(rt; taken, 0);
    let mut few = Few::with(alloc, &[("a", "fixed"), ("b", "tax")])?;
    let (_, said, taken, _) = noted(&mut few, &Memory::none(alloc), 100)?;
    assert_eq!(rt; said.as_str(), "read a; capture a; move a; settle; ");
    assert_eq!(rt; taken, 0);
    Ok(())
}

#[test]
fn remembers_what_it_wrote(rt: HostRuntime) -> Result<(), AllocError> {
    let alloc = rt.alloc();
    for (octets, is_read) in [
        (&b"20000\0a\0not a regular file\0"[..], true),
        (&b"20000\0"[..], true),
        (&b"20000\0a\0"[..], false),
        (&b"020000\0"[..], false),
        (&b"20000"[..], false),
        (&b"99999999999999999999\0"[..], false),
        (&b""[..], false),
    ] {
        let memory = Memory::read(alloc, octets)?;
        assert_eq!(rt; memory.is_some(), is_read);
    }
    let memory = Memory::read(alloc, b"20000\0a\0late\0")?.unwrap_or(Memory::none(alloc));
    assert!(rt; !memory.is_to_be_told(b"a", b"late", 20000));
    assert!(rt; memory.is_to_be_told(b"a", b"late", 20001));
    assert!(rt; memory.is_to_be_told(b"a", b"long", 20000));
    assert!(rt; memory.is_to_be_told(b"b", b"late", 20000));
    Ok(())
}
