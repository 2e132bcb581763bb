//! Which fields people mean by a sender, a recipient and a subject.

ghost use Rattle.std.specs.Prelude.{◌≡◌};
ghost use Rattle.mail_display.specs.Groups.{is_called, is_in_group, group_of};

/// A group of fields (RFC 5322, sections 3.6.2, 3.6.3, 3.6.5 and 3.6.6).
#[derive(Debug, Clone, Copy)]
pub enum FieldGroup {
    /// From, Sender, Resent-From and Resent-Sender.
    Sender,
    /// To, Cc, Bcc, Resent-To, Resent-Cc and Resent-Bcc.
    Recipient,
    /// Subject.
    Subject,
}

/// Whether a field's name is `other` in any case of its letters.
pub fn is_called(name: &[u8], other: &[u8]) -> bool
    ensures { result ≡ is_called name.now other.now }
{
    name.eq_ignore_ascii_case(other)
}

/// Whether a field of this name belongs to a group.
fn is_in_group(name: &[u8], group: FieldGroup) -> bool
    ensures { result ≡ is_in_group group name.now }
{
    match group {
        FieldGroup::Sender => {
            is_called(name, b"from")
                || is_called(name, b"sender")
                || is_called(name, b"resent-from")
                || is_called(name, b"resent-sender")
        }
        FieldGroup::Recipient => {
            is_called(name, b"to")
                || is_called(name, b"cc")
                || is_called(name, b"bcc")
                || is_called(name, b"resent-to")
                || is_called(name, b"resent-cc")
                || is_called(name, b"resent-bcc")
        }
        FieldGroup::Subject => is_called(name, b"subject"),
    }
}

/// The group of the fields of a name, if they belong to one.
pub fn group_of(name: &[u8]) -> Option<FieldGroup>
    ensures { result ≡ group_of name.now }
{
    if is_in_group(name, FieldGroup::Sender) {
        return Some(FieldGroup::Sender);
    }
    if is_in_group(name, FieldGroup::Recipient) {
        return Some(FieldGroup::Recipient);
    }
    if is_in_group(name, FieldGroup::Subject) {
        return Some(FieldGroup::Subject);
    }
    None
}
