//! The names of officers, scripts and recipients.

ghost use Rattle.std.specs.Prelude.{◌≡◌, IfOk, option_map, string_bytes};
ghost use Rattle.std.specs.List.{list_all};
ghost use Rattle.rule_folders.specs.Names.{begins_with_dot, is_officer_name, is_name_of_script, is_plain_octet, is_name_of_recipient, is_domain_octet, is_name_of_domain};
ghost use Rattle.rule_folders.specs.Paths.{path_of_name, path_under, without_slash};

use session_words::is_name;
use std::alloc::{AllocError, Global};
use std::str;

/// The folder of the scripts that every officer's scripts can include.
pub const GLOBAL: &str = "global";

/// The name of an officer's program among the officer's scripts.
pub const MAIN: &str = "main";

/// What the name of a script's file ends with.
pub const SCRIPT_ENDING: &str = ".sieve";

/// Whether a name begins with a dot.
fn is_hidden(name: &[u8]) -> bool
    ensures { result ≡ begins_with_dot name.now }
{
    !name.is_empty() && name[0] == b'.'
}

/// Whether a word is an officer's name that can be the name of a folder: 1 to 64 octets from 33 to 126 without `/`, not
/// beginning with a dot, and not `global`.
pub fn is_officer(word: &[u8]) -> bool
    ensures { result ≡ is_officer_name word.now }
{
    is_name(word) && !word.contains(&b'/') && !is_hidden(word) && word != b"global".as_slice()
}

/// Whether a file can have the script of a name: it has an octet or more, no `/`, and does not begin with a dot. Files
/// whose names begin with a dot are those of editors, and no scripts.
pub fn is_script_name(name: &[u8]) -> bool
    ensures { result ≡ is_name_of_script name.now }
{
    !name.is_empty() && !name.contains(&b'/') && !is_hidden(name)
}

/// Whether an octet is a small letter, a digit, or one of `.`, `-`, `_` and `=`.
fn is_plain(octet: u8) -> bool
    ensures { result ≡ is_plain_octet octet }
{
    octet.is_ascii_lowercase()
        || octet.is_ascii_digit()
        || octet == b'.'
        || octet == b'-'
        || octet == b'_'
        || octet == b'='
}

/// Whether all octets are plain.
fn are_plain(word: &[u8]) -> bool
    ensures { result ≡ list_all is_plain_octet word.now }
{
    word.iter().all(|octet| is_plain(*octet))
}

/// Whether an officer has a name that a recipient of Postfix can have: of small letters, digits, dots, hyphens, `_` and `=`
/// alone, and no hyphen first. Such a name needs no quotation marks in an address (RFC 5322, section 3.2.3); Postfix
/// refuses a recipient that begins with a hyphen, takes `+` for the beginning of an extension, and hands names over in
/// small letters.
pub fn is_recipient(officer: &[u8]) -> bool
    ensures { result ≡ is_name_of_recipient officer.now }
{
    is_officer(officer) && are_plain(officer) && officer[0] != b'-'
}

/// Whether an octet is a letter, a digit, a dot or a hyphen.
fn is_of_domain(octet: u8) -> bool
    ensures { result ≡ is_domain_octet octet }
{
    octet.is_ascii_alphanumeric() || octet == b'.' || octet == b'-'
}

/// Whether all octets are of a domain.
fn are_of_domain(word: &[u8]) -> bool
    ensures { result ≡ list_all is_domain_octet word.now }
{
    word.iter().all(|octet| is_of_domain(*octet))
}

/// Whether a word is a domain of letters, digits, dots and hyphens (RFC 1123, section 2.1), of which it has one or more.
pub fn is_domain(word: &[u8]) -> bool
    ensures { result ≡ is_name_of_domain word.now }
{
    !word.is_empty() && are_of_domain(word)
}

/// A folder without the `/` that its name may end with.
fn without_slash(folder: &str) -> &str
    ensures { result.now ≡ without_slash folder.now }
{
    match folder.strip_suffix('/') {
        Some(front) => front,
        None => folder,
    }
}

/// The path of the script of a name in a folder whose name does not end with a `/`.
fn join(alloc: Global, folder: &str, name: &str) -> Result<String, AllocError>
    ensures { IfOk result (λ path. string_bytes path ≡ path_under folder.now name.now) }
{
    format!(in alloc; "{folder}/{name}{SCRIPT_ENDING}")
}

/// The path of a script in a folder, by its name; none where no file can have it.
pub fn path_in(alloc: Global, folder: &str, name: &[u8]) -> Result<Option<String>, AllocError>
    ensures { IfOk result (λ path.
        option_map string_bytes path ≡ path_of_name folder.now name.now) }
{
    if !is_script_name(name) {
        return Ok(None);
    }
    match str::from_utf8(name) {
        Ok(name) => Ok(Some(join(alloc, without_slash(folder), name)?)),
        Err(_) => Ok(None),
    }
}

/// The name of the script that a file of a name has; none where it has none.
pub fn script_in(file: &str) -> Option<&str> {
    file.strip_suffix(SCRIPT_ENDING)
        .filter(|name| is_script_name(name.as_bytes()))
}
