//! What stands for rules in a history.

ghost use Rattle.std.specs.Prelude.{◌≡◌, ◌++◌, flat_map, string_bytes, IfOk, OnOk};
ghost use Rattle.cli_changes.specs.RuleSums.{script_line, rules_sum};

use cli_sources::{Rules, Script};
use cli_texts::sum_of;
use desk_commands::Payload;
use std::alloc::{AllocError, Global};

/// Adds the line that `sha256sum` prints of a script in a folder of the rules.
fn push_line(
    alloc: Global,
    lines: &mut String,
    folder: &str,
    script: &Script,
) -> Result<(), AllocError>
    ensures { OnOk result
        (string_bytes lines.new ≡ string_bytes lines.old ++ script_line folder.now script.now) }
{
    match &script.text {
        Payload::Whole(text) => {
            let sum = sum_of(alloc, text.as_slice())?;
            write!(lines, "{sum}  {folder}/{}.sieve\n", script.name)
        }
        Payload::TooLong | Payload::NoMemory => Ok(()),
    }
}

/// Adds the lines of scripts.
fn push_lines(
    alloc: Global,
    lines: &mut String,
    folder: &str,
    scripts: &[Script],
) -> Result<(), AllocError>
    ensures { OnOk result (string_bytes lines.new
        ≡ string_bytes lines.old ++ flat_map (script_line folder.now) scripts.now) }
{
    for script in scripts {
        push_line(alloc, lines, folder, script)?;
    }
    Ok(())
}

/// The sum of an officer's rules: the SHA-256 of what `sha256sum` prints in the folder of the rules, of each script that the
/// program reaches: the program first, then the officer's others, and then those for all officers.
pub fn sum_of_rules(alloc: Global, rules: &Rules) -> Result<String, AllocError>
    ensures { IfOk result (λ sum. string_bytes sum ≡ rules_sum rules.now) }
{
    let mut lines = String::new(alloc);
    push_lines(
        alloc,
        &mut lines,
        rules.officer.as_str(),
        rules.scripts.as_slice(),
    )?;
    push_lines(alloc, &mut lines, "global", rules.globals.as_slice())?;
    sum_of(alloc, lines.as_bytes())
}
