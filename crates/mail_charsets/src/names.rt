//! The names of charsets, in any case of their letters: those of IANA's registry, and some that mail programs use beside
//! them.

ghost use Rattle.std.specs.Prelude.{◌≡◌};
ghost use Rattle.std.specs.List.{list_any};
ghost use Rattle.mail_charsets.specs.declared.charset.Charset.TheVariants.{UsAscii, Utf8, Iso8859_1, Iso8859_2, Iso8859_3, Iso8859_4, Iso8859_5, Iso8859_6, Iso8859_7, Iso8859_8, Iso8859_9, Iso8859_10, Iso8859_11, Iso8859_13, Iso8859_14, Iso8859_15, Iso8859_16, Windows1250, Windows1251, Windows1252, Windows1253, Windows1254, Windows1255, Windows1256, Windows1257, Windows1258, Koi8R, Koi8U};
ghost use Rattle.mail_charsets.specs.Names.{is_named, names_of};

use crate::charset::Charset;

/// Whether two names are equal in any case of their letters.
fn is_called(name: &[u8], other: &[u8]) -> bool
    ensures { result ≡ is_named name.now other.now }
{
    name.eq_ignore_ascii_case(other)
}

fn is_us_ascii(name: &[u8]) -> bool
    ensures { result ≡ list_any (is_named name.now) (names_of UsAscii) }
{
    is_called(name, b"us-ascii")
        || is_called(name, b"ascii")
        || is_called(name, b"us")
        || is_called(name, b"ansi_x3.4-1968")
        || is_called(name, b"ansi_x3.4-1986")
        || is_called(name, b"iso_646.irv:1991")
        || is_called(name, b"iso646-us")
        || is_called(name, b"iso-ir-6")
        || is_called(name, b"ibm367")
        || is_called(name, b"cp367")
        || is_called(name, b"csascii")
}

fn is_utf_8(name: &[u8]) -> bool
    ensures { result ≡ list_any (is_named name.now) (names_of Utf8) }
{
    is_called(name, b"utf-8") || is_called(name, b"utf8") || is_called(name, b"csutf8")
}

fn is_iso_8859_1(name: &[u8]) -> bool
    ensures { result ≡ list_any (is_named name.now) (names_of Iso8859_1) }
{
    is_called(name, b"iso-8859-1")
        || is_called(name, b"iso8859-1")
        || is_called(name, b"iso_8859-1")
        || is_called(name, b"iso_8859-1:1987")
        || is_called(name, b"iso-ir-100")
        || is_called(name, b"l1")
        || is_called(name, b"latin1")
        || is_called(name, b"latin-1")
        || is_called(name, b"ibm819")
        || is_called(name, b"cp819")
        || is_called(name, b"csisolatin1")
}

fn is_iso_8859_2(name: &[u8]) -> bool
    ensures { result ≡ list_any (is_named name.now) (names_of Iso8859_2) }
{
    is_called(name, b"iso-8859-2")
        || is_called(name, b"iso8859-2")
        || is_called(name, b"iso_8859-2")
        || is_called(name, b"iso_8859-2:1987")
        || is_called(name, b"iso-ir-101")
        || is_called(name, b"l2")
        || is_called(name, b"latin2")
        || is_called(name, b"csisolatin2")
}

fn is_iso_8859_3(name: &[u8]) -> bool
    ensures { result ≡ list_any (is_named name.now) (names_of Iso8859_3) }
{
    is_called(name, b"iso-8859-3")
        || is_called(name, b"iso8859-3")
        || is_called(name, b"iso_8859-3")
        || is_called(name, b"iso_8859-3:1988")
        || is_called(name, b"iso-ir-109")
        || is_called(name, b"l3")
        || is_called(name, b"latin3")
        || is_called(name, b"csisolatin3")
}

fn is_iso_8859_4(name: &[u8]) -> bool
    ensures { result ≡ list_any (is_named name.now) (names_of Iso8859_4) }
{
    is_called(name, b"iso-8859-4")
        || is_called(name, b"iso8859-4")
        || is_called(name, b"iso_8859-4")
        || is_called(name, b"iso_8859-4:1988")
        || is_called(name, b"iso-ir-110")
        || is_called(name, b"l4")
        || is_called(name, b"latin4")
        || is_called(name, b"csisolatin4")
}

fn is_iso_8859_5(name: &[u8]) -> bool
    ensures { result ≡ list_any (is_named name.now) (names_of Iso8859_5) }
{
    is_called(name, b"iso-8859-5")
        || is_called(name, b"iso8859-5")
        || is_called(name, b"iso_8859-5")
        || is_called(name, b"iso_8859-5:1988")
        || is_called(name, b"iso-ir-144")
        || is_called(name, b"cyrillic")
        || is_called(name, b"csisolatincyrillic")
}

fn is_iso_8859_6(name: &[u8]) -> bool
    ensures { result ≡ list_any (is_named name.now) (names_of Iso8859_6) }
{
    is_called(name, b"iso-8859-6")
        || is_called(name, b"iso8859-6")
        || is_called(name, b"iso_8859-6")
        || is_called(name, b"iso_8859-6:1987")
        || is_called(name, b"iso-ir-127")
        || is_called(name, b"ecma-114")
        || is_called(name, b"asmo-708")
        || is_called(name, b"arabic")
        || is_called(name, b"csisolatinarabic")
        || is_called(name, b"iso-8859-6-i")
        || is_called(name, b"iso-8859-6-e")
}

fn is_iso_8859_7(name: &[u8]) -> bool
    ensures { result ≡ list_any (is_named name.now) (names_of Iso8859_7) }
{
    is_called(name, b"iso-8859-7")
        || is_called(name, b"iso8859-7")
        || is_called(name, b"iso_8859-7")
        || is_called(name, b"iso_8859-7:1987")
        || is_called(name, b"iso-ir-126")
        || is_called(name, b"elot_928")
        || is_called(name, b"ecma-118")
        || is_called(name, b"greek")
        || is_called(name, b"greek8")
        || is_called(name, b"csisolatingreek")
}

fn is_iso_8859_8(name: &[u8]) -> bool
    ensures { result ≡ list_any (is_named name.now) (names_of Iso8859_8) }
{
    is_called(name, b"iso-8859-8")
        || is_called(name, b"iso8859-8")
        || is_called(name, b"iso_8859-8")
        || is_called(name, b"iso_8859-8:1988")
        || is_called(name, b"iso-ir-138")
        || is_called(name, b"hebrew")
        || is_called(name, b"csisolatinhebrew")
        || is_called(name, b"iso-8859-8-i")
        || is_called(name, b"iso-8859-8-e")
}

fn is_iso_8859_9(name: &[u8]) -> bool
    ensures { result ≡ list_any (is_named name.now) (names_of Iso8859_9) }
{
    is_called(name, b"iso-8859-9")
        || is_called(name, b"iso8859-9")
        || is_called(name, b"iso_8859-9")
        || is_called(name, b"iso_8859-9:1989")
        || is_called(name, b"iso-ir-148")
        || is_called(name, b"l5")
        || is_called(name, b"latin5")
        || is_called(name, b"csisolatin5")
}

fn is_iso_8859_10(name: &[u8]) -> bool
    ensures { result ≡ list_any (is_named name.now) (names_of Iso8859_10) }
{
    is_called(name, b"iso-8859-10")
        || is_called(name, b"iso8859-10")
        || is_called(name, b"iso_8859-10")
        || is_called(name, b"iso-ir-157")
        || is_called(name, b"l6")
        || is_called(name, b"iso_8859-10:1992")
        || is_called(name, b"latin6")
        || is_called(name, b"csisolatin6")
}

fn is_iso_8859_11(name: &[u8]) -> bool
    ensures { result ≡ list_any (is_named name.now) (names_of Iso8859_11) }
{
    is_called(name, b"iso-8859-11")
        || is_called(name, b"iso8859-11")
        || is_called(name, b"iso_8859-11")
        || is_called(name, b"csiso885911")
}

fn is_iso_8859_13(name: &[u8]) -> bool
    ensures { result ≡ list_any (is_named name.now) (names_of Iso8859_13) }
{
    is_called(name, b"iso-8859-13")
        || is_called(name, b"iso8859-13")
        || is_called(name, b"iso_8859-13")
        || is_called(name, b"csiso885913")
}

fn is_iso_8859_14(name: &[u8]) -> bool
    ensures { result ≡ list_any (is_named name.now) (names_of Iso8859_14) }
{
    is_called(name, b"iso-8859-14")
        || is_called(name, b"iso8859-14")
        || is_called(name, b"iso_8859-14")
        || is_called(name, b"iso-ir-199")
        || is_called(name, b"iso_8859-14:1998")
        || is_called(name, b"latin8")
        || is_called(name, b"iso-celtic")
        || is_called(name, b"l8")
        || is_called(name, b"csiso885914")
}

fn is_iso_8859_15(name: &[u8]) -> bool
    ensures { result ≡ list_any (is_named name.now) (names_of Iso8859_15) }
{
    is_called(name, b"iso-8859-15")
        || is_called(name, b"iso8859-15")
        || is_called(name, b"iso_8859-15")
        || is_called(name, b"latin-9")
        || is_called(name, b"latin9")
        || is_called(name, b"csiso885915")
}

fn is_iso_8859_16(name: &[u8]) -> bool
    ensures { result ≡ list_any (is_named name.now) (names_of Iso8859_16) }
{
    is_called(name, b"iso-8859-16")
        || is_called(name, b"iso8859-16")
        || is_called(name, b"iso_8859-16")
        || is_called(name, b"iso-ir-226")
        || is_called(name, b"iso_8859-16:2001")
        || is_called(name, b"latin10")
        || is_called(name, b"l10")
        || is_called(name, b"csiso885916")
}

fn is_windows_1250(name: &[u8]) -> bool
    ensures { result ≡ list_any (is_named name.now) (names_of Windows1250) }
{
    is_called(name, b"windows-1250")
        || is_called(name, b"cp1250")
        || is_called(name, b"x-cp1250")
        || is_called(name, b"cswindows1250")
}

fn is_windows_1251(name: &[u8]) -> bool
    ensures { result ≡ list_any (is_named name.now) (names_of Windows1251) }
{
    is_called(name, b"windows-1251")
        || is_called(name, b"cp1251")
        || is_called(name, b"x-cp1251")
        || is_called(name, b"cswindows1251")
}

fn is_windows_1252(name: &[u8]) -> bool
    ensures { result ≡ list_any (is_named name.now) (names_of Windows1252) }
{
    is_called(name, b"windows-1252")
        || is_called(name, b"cp1252")
        || is_called(name, b"x-cp1252")
        || is_called(name, b"cswindows1252")
}

fn is_windows_1253(name: &[u8]) -> bool
    ensures { result ≡ list_any (is_named name.now) (names_of Windows1253) }
{
    is_called(name, b"windows-1253")
        || is_called(name, b"cp1253")
        || is_called(name, b"x-cp1253")
        || is_called(name, b"cswindows1253")
}

fn is_windows_1254(name: &[u8]) -> bool
    ensures { result ≡ list_any (is_named name.now) (names_of Windows1254) }
{
    is_called(name, b"windows-1254")
        || is_called(name, b"cp1254")
        || is_called(name, b"x-cp1254")
        || is_called(name, b"cswindows1254")
}

fn is_windows_1255(name: &[u8]) -> bool
    ensures { result ≡ list_any (is_named name.now) (names_of Windows1255) }
{
    is_called(name, b"windows-1255")
        || is_called(name, b"cp1255")
        || is_called(name, b"x-cp1255")
        || is_called(name, b"cswindows1255")
}

fn is_windows_1256(name: &[u8]) -> bool
    ensures { result ≡ list_any (is_named name.now) (names_of Windows1256) }
{
    is_called(name, b"windows-1256")
        || is_called(name, b"cp1256")
        || is_called(name, b"x-cp1256")
        || is_called(name, b"cswindows1256")
}

fn is_windows_1257(name: &[u8]) -> bool
    ensures { result ≡ list_any (is_named name.now) (names_of Windows1257) }
{
    is_called(name, b"windows-1257")
        || is_called(name, b"cp1257")
        || is_called(name, b"x-cp1257")
        || is_called(name, b"cswindows1257")
}

fn is_windows_1258(name: &[u8]) -> bool
    ensures { result ≡ list_any (is_named name.now) (names_of Windows1258) }
{
    is_called(name, b"windows-1258")
        || is_called(name, b"cp1258")
        || is_called(name, b"x-cp1258")
        || is_called(name, b"cswindows1258")
}

fn is_koi8_r(name: &[u8]) -> bool
    ensures { result ≡ list_any (is_named name.now) (names_of Koi8R) }
{
    is_called(name, b"koi8-r") || is_called(name, b"koi8r") || is_called(name, b"cskoi8r")
}

fn is_koi8_u(name: &[u8]) -> bool
    ensures { result ≡ list_any (is_named name.now) (names_of Koi8U) }
{
    is_called(name, b"koi8-u") || is_called(name, b"koi8u") || is_called(name, b"cskoi8u")
}

/// Whether a charset has a name.
pub fn has_name(charset: Charset, name: &[u8]) -> bool
    ensures { result ≡ list_any (is_named name.now) (names_of charset) }
{
    match charset {
        Charset::UsAscii => is_us_ascii(name),
        Charset::Utf8 => is_utf_8(name),
        Charset::Iso8859_1 => is_iso_8859_1(name),
        Charset::Iso8859_2 => is_iso_8859_2(name),
        Charset::Iso8859_3 => is_iso_8859_3(name),
        Charset::Iso8859_4 => is_iso_8859_4(name),
        Charset::Iso8859_5 => is_iso_8859_5(name),
        Charset::Iso8859_6 => is_iso_8859_6(name),
        Charset::Iso8859_7 => is_iso_8859_7(name),
        Charset::Iso8859_8 => is_iso_8859_8(name),
        Charset::Iso8859_9 => is_iso_8859_9(name),
        Charset::Iso8859_10 => is_iso_8859_10(name),
        Charset::Iso8859_11 => is_iso_8859_11(name),
        Charset::Iso8859_13 => is_iso_8859_13(name),
        Charset::Iso8859_14 => is_iso_8859_14(name),
        Charset::Iso8859_15 => is_iso_8859_15(name),
        Charset::Iso8859_16 => is_iso_8859_16(name),
        Charset::Windows1250 => is_windows_1250(name),
        Charset::Windows1251 => is_windows_1251(name),
        Charset::Windows1252 => is_windows_1252(name),
        Charset::Windows1253 => is_windows_1253(name),
        Charset::Windows1254 => is_windows_1254(name),
        Charset::Windows1255 => is_windows_1255(name),
        Charset::Windows1256 => is_windows_1256(name),
        Charset::Windows1257 => is_windows_1257(name),
        Charset::Windows1258 => is_windows_1258(name),
        Charset::Koi8R => is_koi8_r(name),
        Charset::Koi8U => is_koi8_u(name),
    }
}
