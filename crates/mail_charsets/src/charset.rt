//! A charset, and its name.

ghost use Rattle.std.specs.Prelude.{◌≡◌, ◌≤◌, ◌==◌, not, length};
ghost use Rattle.std.specs.List.{prefix_len};
ghost use Rattle.mail_charsets.specs.Named.{charset_called, charset_named};

use crate::names::has_name;

/// A charset of which texts are read.
#[derive(Clone, Copy)]
pub enum Charset {
    /// US-ASCII: an octet above 127 has no character.
    UsAscii,
    /// UTF-8.
    Utf8,
    /// ISO 8859-1.
    Iso8859_1,
    /// ISO 8859-2.
    Iso8859_2,
    /// ISO 8859-3.
    Iso8859_3,
    /// ISO 8859-4.
    Iso8859_4,
    /// ISO 8859-5.
    Iso8859_5,
    /// ISO 8859-6.
    Iso8859_6,
    /// ISO 8859-7.
    Iso8859_7,
    /// ISO 8859-8.
    Iso8859_8,
    /// ISO 8859-9.
    Iso8859_9,
    /// ISO 8859-10.
    Iso8859_10,
    /// ISO 8859-11.
    Iso8859_11,
    /// ISO 8859-13.
    Iso8859_13,
    /// ISO 8859-14.
    Iso8859_14,
    /// ISO 8859-15.
    Iso8859_15,
    /// ISO 8859-16.
    Iso8859_16,
    /// windows-1250.
    Windows1250,
    /// windows-1251.
    Windows1251,
    /// windows-1252.
    Windows1252,
    /// windows-1253.
    Windows1253,
    /// windows-1254.
    Windows1254,
    /// windows-1255.
    Windows1255,
    /// windows-1256.
    Windows1256,
    /// windows-1257.
    Windows1257,
    /// windows-1258.
    Windows1258,
    /// KOI8-R (RFC 1489).
    Koi8R,
    /// KOI8-U (RFC 2319).
    Koi8U,
}

/// All charsets.
static CHARSETS: [Charset; 28] = [
    Charset::UsAscii,
    Charset::Utf8,
    Charset::Iso8859_1,
    Charset::Iso8859_2,
    Charset::Iso8859_3,
    Charset::Iso8859_4,
    Charset::Iso8859_5,
    Charset::Iso8859_6,
    Charset::Iso8859_7,
    Charset::Iso8859_8,
    Charset::Iso8859_9,
    Charset::Iso8859_10,
    Charset::Iso8859_11,
    Charset::Iso8859_13,
    Charset::Iso8859_14,
    Charset::Iso8859_15,
    Charset::Iso8859_16,
    Charset::Windows1250,
    Charset::Windows1251,
    Charset::Windows1252,
    Charset::Windows1253,
    Charset::Windows1254,
    Charset::Windows1255,
    Charset::Windows1256,
    Charset::Windows1257,
    Charset::Windows1258,
    Charset::Koi8R,
    Charset::Koi8U,
];

/// How many octets a name has before the language that "*" may put after it (RFC 2231, section 5).
fn name_len(name: &[u8]) -> usize
    ensures value { result ≡ prefix_len (λ b. not (b == 42)) name.now }
    ensures within { result ≤ length name.now }
{
    name.iter().take_while(|octet| **octet != b'*').count()
}

/// The charset of a name that has no language after it.
#[tactic(auto, unfolding(crate::specs::Named::charset_called))]
fn charset_called(name: &[u8]) -> Option<Charset>
    ensures { result ≡ charset_called name.now }
{
    CHARSETS
        .iter()
        .copied()
        .find(|charset| has_name(*charset, name))
}

impl Charset {
    /// The charset of a name, in any case of its letters, and with or without a language after "*" (RFC 2231, section
    /// 5). The names are those of IANA's registry of character sets for these charsets, and some that mail programs
    /// use beside them. None for another name.
    pub fn named(name: &[u8]) -> Option<Charset>
        ensures { result ≡ charset_named name.now }
    {
        let (name, _) = name.split_at(name_len(name));
        charset_called(name)
    }
}
