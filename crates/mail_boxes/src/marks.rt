//! What the lines of an mbox are (RFC 4155, and for quoting the rule of mboxrd).

ghost use Rattle.std.specs.Prelude.{◌≡◌};
ghost use Rattle.mail_boxes.specs.Marks.{are, begins_with_date, begins_with_from, begins_with_long_day, begins_with_short_day, begins_with_time, has_date, is_empty_line, is_month, is_quoted, is_separator, is_weekday, unquoted};

/// Whether a line is empty.
pub(crate) fn is_empty_line(line: &[u8]) -> bool
    ensures { result ≡ is_empty_line line.now }
{
    match line {
        [a] => *a == b'\n',
        [a, b] => *a == b'\r' && *b == b'\n',
        _ => false,
    }
}

/// Whether a text begins with "From ".
pub(crate) fn begins_with_from(text: &[u8]) -> bool
    ensures { result ≡ begins_with_from text.now }
{
    match text {
        [a, b, c, d, e, ..] => {
            *a == b'F' && *b == b'r' && *c == b'o' && *d == b'm' && *e == b' '
        }
        _ => false,
    }
}

/// Whether three octets are the name of a day of the week.
fn is_weekday(a: u8, b: u8, c: u8) -> bool
    ensures { result ≡ is_weekday a b c }
{
    match (a, b, c) {
        (b'S', b'u', b'n') => true,
        (b'M', b'o', b'n') => true,
        (b'T', b'u', b'e') => true,
        (b'W', b'e', b'd') => true,
        (b'T', b'h', b'u') => true,
        (b'F', b'r', b'i') => true,
        (b'S', b'a', b't') => true,
        _ => false,
    }
}

/// Whether three octets are the name of a month.
fn is_month(a: u8, b: u8, c: u8) -> bool
    ensures { result ≡ is_month a b c }
{
    match (a, b, c) {
        (b'J', b'a', b'n') => true,
        (b'F', b'e', b'b') => true,
        (b'M', b'a', b'r') => true,
        (b'A', b'p', b'r') => true,
        (b'M', b'a', b'y') => true,
        (b'J', b'u', b'n') => true,
        (b'J', b'u', b'l') => true,
        (b'A', b'u', b'g') => true,
        (b'S', b'e', b'p') => true,
        (b'O', b'c', b't') => true,
        (b'N', b'o', b'v') => true,
        (b'D', b'e', b'c') => true,
        _ => false,
    }
}

/// Whether a text begins with an hour and a minute.
fn begins_with_time(text: &[u8]) -> bool
    ensures { result ≡ begins_with_time text.now }
{
    match text {
        [a, b, c, d, e, ..] => {
            a.is_ascii_digit()
                && b.is_ascii_digit()
                && *c == b':'
                && d.is_ascii_digit()
                && e.is_ascii_digit()
        }
        _ => false,
    }
}

/// Whether a text begins with a day of one digit, a space and a time.
fn begins_with_short_day(text: &[u8]) -> bool
    ensures { result ≡ begins_with_short_day text.now }
{
    match text {
        [a, b, rest @ ..] => a.is_ascii_digit() && *b == b' ' && begins_with_time(rest),
        _ => false,
    }
}

/// The same with a day of two digits, or of a space and a digit.
fn begins_with_long_day(text: &[u8]) -> bool
    ensures { result ≡ begins_with_long_day text.now }
{
    match text {
        [a, b, c, rest @ ..] => {
            (a.is_ascii_digit() || *a == b' ')
                && b.is_ascii_digit()
                && *c == b' '
                && begins_with_time(rest)
        }
        _ => false,
    }
}

/// Whether a text begins with a date, as `Thu Jan  1 09:30`.
fn begins_with_date(text: &[u8]) -> bool
    ensures { result ≡ begins_with_date text.now }
{
    match text {
        [a, b, c, d, e, f, g, h, rest @ ..] => {
            is_weekday(*a, *b, *c)
                && *d == b' '
                && is_month(*e, *f, *g)
                && *h == b' '
                && (begins_with_short_day(rest) || begins_with_long_day(rest))
        }
        _ => false,
    }
}

/// Whether such a date stands in a text after a space.
#[tactic(auto, unfolding(crate::specs::Marks::has_date))]
fn has_date(text: &[u8]) -> bool
    ensures { result ≡ has_date text.now }
{
    let mut rest = text;
    while let [octet, after @ ..] = rest {
        if *octet == b' ' && begins_with_date(after) {
            return true;
        }
        rest = after;
    }
    false
}

/// Whether a line separates messages: it begins with "From ", and has a date as C's `asctime` writes it after a space.
pub fn is_separator(line: &[u8]) -> bool
    ensures { result ≡ is_separator line.now }
{
    begins_with_from(line) && has_date(&line[4..])
}

/// Whether a line is one `>` or more before "From ".
#[tactic(auto, unfolding(crate::specs::Marks::is_quoted))]
fn is_quoted(line: &[u8]) -> bool
    ensures { result ≡ is_quoted line.now }
{
    let mut rest = line;
    while let [b'>', after @ ..] = rest {
        if begins_with_from(after) {
            return true;
        }
        rest = after;
    }
    false
}

/// A line without its quoting.
pub(crate) fn unquoted(line: &[u8]) -> &[u8]
    ensures { result.now ≡ unquoted line.now }
{
    if is_quoted(line) {
        let (_, rest) = line.split_at(1);
        rest
    } else {
        line
    }
}
