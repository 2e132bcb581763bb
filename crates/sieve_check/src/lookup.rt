//! Finding the row of a name.

ghost use Rattle.std.specs.Prelude.{◌≡◌, map};
ghost use Rattle.std.specs.Option.{option_map};
ghost use Rattle.sieve_check.specs.Lookup.{same_name, same_text, command_named, test_named, tag_named, capability_named};
ghost use Rattle.sieve_check.specs.Views.{command_view, test_view, tag_view, capability_view};

use crate::table::{CapabilityRow, CommandRow, TagRow, TestRow, capabilities, commands, tests};

/// Whether two names are equal except for ASCII case.
#[tactic(auto, unfolding(crate::specs::Lookup::same_name))]
pub fn is_same_name(name: &[u8], other: &[u8]) -> bool
    ensures { result ≡ same_name name.now other.now }
{
    name.eq_ignore_ascii_case(other)
}

/// Whether two texts are the same octets.
#[tactic(auto, unfolding(crate::specs::Lookup::same_text))]
pub fn is_same_text(text: &[u8], other: &[u8]) -> bool
    ensures { result ≡ same_text text.now other.now }
{
    text == other
}

/// The row of the command of this name. ASCII case is ignored.
pub fn find_command(name: &[u8]) -> Option<&'static CommandRow>
    ensures { option_map (λ r. command_view r.now) result ≡ command_named name.now }
{
    for row in commands() {
        if is_same_name(name, row.name) {
            return Some(row);
        }
    }
    None
}

/// The row of the test of this name. ASCII case is ignored.
pub fn find_test(name: &[u8]) -> Option<&'static TestRow>
    ensures { option_map (λ r. test_view r.now) result ≡ test_named name.now }
{
    for row in tests() {
        if is_same_name(name, row.name) {
            return Some(row);
        }
    }
    None
}

/// The row of the tag of this name among these. ASCII case is ignored.
pub fn find_tag(name: &[u8], tags: &[TagRow]) -> Option<TagRow>
    ensures { option_map tag_view result ≡ tag_named name.now (map tag_view tags.now) }
{
    for row in tags {
        if is_same_name(name, row.name) {
            return Some(*row);
        }
    }
    None
}

/// The row of the capability that these exact octets name.
pub fn find_capability(text: &[u8]) -> Option<&'static CapabilityRow>
    ensures { option_map (λ r. capability_view r.now) result ≡ capability_named text.now }
{
    for row in capabilities() {
        if is_same_text(text, row.text) {
            return Some(row);
        }
    }
    None
}
