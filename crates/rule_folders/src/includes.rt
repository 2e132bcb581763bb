//! The scripts that a script includes.

ghost use Rattle.std.specs.Prelude.{◌≡◌, ◌++◌, IfOk, OnOk, map};
ghost use Rattle.std.specs.List.{flat_map};
ghost use Rattle.tool_findings.specs.Commands.{include_by, items_of, own_tokens};
ghost use Rattle.rule_folders.specs.Includes.{AreTokensOf, Leads, include_of};

use sieve_syntax::Token;
use sieve_text::{ScanFault, scan};
use std::alloc::{AllocError, Global};
use tool_findings::{Front, Named, fronts_of, name_in};

/// A script that a script includes.
#[derive(Drop)]
pub struct Included {
    pub name: Vec<u8>,
    /// Whether it is one that every officer can include.
    pub is_global: bool,
    /// Whether nothing is done where the script was entered before.
    pub is_once: bool,
    /// Where it is named, an offset in octets.
    pub at: usize,
}

/// The tokens of a text; none where it has no sequence of tokens.
pub fn tokens_of(alloc: Global, text: &[u8]) -> Result<Vec<Token>, AllocError>
    ensures { IfOk result (λ v. AreTokensOf text.now v.items) }
{
    match scan(alloc, text) {
        Ok(tokens) => Ok(tokens),
        Err(ScanFault::NoMemory) => Err(AllocError),
        Err(ScanFault::Refused(_, _)) => Ok(Vec::new(alloc)),
    }
}

/// Adds the script that the command with these tokens includes, if it is an include.
fn add_include(
    alloc: Global,
    includes: &mut Vec<Included>,
    tokens: &[Token],
) -> Result<(), AllocError>
    ensures { OnOk result (map include_of includes.new.items
        ≡ map include_of includes.old.items ++ items_of (include_by tokens.now)) }
{
    match name_in(tokens) {
        Some(
            (
                Named::Script {
                    name,
                    is_global,
                    is_once,
                    ..
                },
                at,
            ),
        ) => {
            includes.push(Included {
                name: Vec::from_slice(alloc, name)?,
                is_global,
                is_once,
                at,
            })?;
            Ok(())
        }
        _ => Ok(()),
    }
}

/// The scripts that the commands with these fronts include.
fn includes_of_fronts(
    alloc: Global,
    tokens: &[Token],
    fronts: &[Front],
) -> Result<Vec<Included>, AllocError>
    ensures { IfOk result (λ v. map include_of v.items
        ≡ flat_map (λ f. items_of (include_by (own_tokens tokens.now f))) fronts.now) }
{
    let mut includes = Vec::new(alloc);
    for front in fronts {
        add_include(alloc, &mut includes, front.own(tokens))?;
    }
    Ok(includes)
}

/// The scripts that the commands of a text include, in text order; also those of a text that is refused, as far as it has
/// commands.
pub fn includes_in(alloc: Global, text: &[u8]) -> Result<Vec<Included>, AllocError>
    ensures { IfOk result (λ v. Leads text.now (map include_of v.items)) }
{
    let tokens = tokens_of(alloc, text)?;
    let fronts = fronts_of(alloc, tokens.as_slice())?;
    includes_of_fronts(alloc, tokens.as_slice(), fronts.as_slice())
}
