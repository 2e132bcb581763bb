//! What a run can learn about a message, and about the plan by which it is filed. In the program each run asks a
//! `WholeCase` (`whole`).

ghost use Rattle.std.specs.Prelude.{◌≡◌, ◌<◌, length};
ghost use Rattle.sieve_meaning.specs.Case.{Facts, is_named};
ghost use Rattle.mail_case.specs.Fields.{field_at};

/// A message and the open classes, as a run asks about them. The five functions answer by one list of facts, which does
/// not change while the case is only read.
pub trait Case {
    /// The facts by which the functions answer.
    ghost facts: { Self → Facts };

    /// The size of the message in octets, as it was handed in.
    fn size(&self) -> u64
        ensures { result ≡ (facts self.now).size };

    /// The number of fields of the header (RFC 5322, section 2.2).
    fn field_count(&self) -> usize
        ensures { result ≡ length (facts self.now).fields };

    /// Whether the field at a place, counted from 0 and below `field_count`, has this name. Names ignore ASCII case
    /// (RFC 5228, section 2.4.2.2).
    fn is_named(&self, field: usize, name: &[u8]) -> bool
        requires { field < length (facts self.now).fields }
        ensures { result ≡ is_named name.now (field_at (facts self.now) field) };

    /// The value of the field at a place, counted from 0 and below `field_count`, with folding and encoded words
    /// undone.
    fn value(&self, field: usize) -> &[u8]
        requires { field < length (facts self.now).fields }
        ensures { result.now ≡ (field_at (facts self.now) field).value };

    /// Whether a path is that of an open class.
    fn is_open(&self, path: &[u8]) -> bool
        ensures { result ≡ (facts self.now).is_open path.now };
}
