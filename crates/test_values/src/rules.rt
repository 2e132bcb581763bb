//! Which scripts a program reaches by its includes, and which names are those of recipients.

ghost use Rattle.std.specs.Prelude.{◌≡◌, codes, if◌then◌else◌};
ghost use Rattle.rule_folders.specs.Paths.{path_of_name};

use rule_folders::{Found, Included, Reached, Script, Scripts, is_recipient, path_in};
use std::alloc::{AllocError, Global};

/// Scripts by their paths: `main` includes `a`, `a` includes a global `b` and `main`, and nothing includes `c`.
#[derive(Clone, Copy)]
struct Few {
    alloc: Global,
}

/// The folder of a script.
fn folder(is_global: bool) -> &'static str
    ensures { result.now ≡ (if is_global then codes "global" else codes "ann") }
{
    if is_global { "global" } else { "ann" }
}

impl Scripts for Few {
    type Fault = AllocError;

    ghost place = { λ _ name is_global.
        path_of_name (if is_global then codes "global" else codes "ann") name };

    ghost made = { λ _ _. Unit {0} };

    fn no_memory(&self) -> AllocError {
        AllocError
    }

    fn path_of(&self, alloc: Global, included: &Included) -> Result<Option<String>, AllocError> {
        path_in(alloc, folder(included.is_global), included.name.as_slice())
    }

    fn read(&mut self, path: &str, _is_global: bool) -> Result<Found, AllocError> {
        Ok(match path {
            "ann/a.sieve" => Found::Text(Vec::from_slice(
                self.alloc,
                b"if true { include :global \"b\"; } include \"main\"; include \"d\"; include \".c\";",
            )?),
            "ann/.c.sieve" | "ann/c.sieve" => Found::TooLong,
            "global/b.sieve" => Found::TooLong,
            _ => Found::Nothing,
        })
    }
}

#[test]
fn reaches_by_includes(rt: HostRuntime) -> Result<(), AllocError> {
    let alloc = rt.alloc();
    let program = Script {
        path: String::from_str(alloc, "ann/main.sieve")?,
        name: Vec::from_slice(alloc, b"main")?,
        is_global: false,
        text: Some(Vec::from_slice(alloc, b"require \"include\"; include :once \"a\";")?),
    };
    let (reached, edges) = Reached::follow(alloc, program, &mut Few { alloc })?;
    assert_eq!(rt; reached.scripts().len(), 3);
    assert_eq!(rt; reached.path(2), "global/b.sieve");
    assert!(rt; !reached.has("ann/c.sieve"));
    assert_eq!(rt; edges.get(1).map_or(0, |of| of.len()), 2);
    Ok(())
}

#[test]
fn names_of_recipients(rt: HostRuntime) {
    assert!(rt; is_recipient(b"ann.smith"));
    assert!(rt; !is_recipient(b"Ann"));
    assert!(rt; !is_recipient(b"ann+tax"));
    assert!(rt; !is_recipient(b"-ann"));
    assert!(rt; !is_recipient(b"global"));
}
