//! Fields of headers as people read them, and texts that are looked for in them.

use mail_display::{
    FieldGroup, FieldQuestion, FieldQuestionFault, date, display, sender, subject, undecoded_words,
};
use std::alloc::{AllocError, Global};

/// A body of a field is shown as people read it.
fn shows(alloc: Global, body: &[u8], text: &str, unread: usize) -> Result<bool, AllocError> {
    let shown = display(alloc, body)?;
    Ok(shown.text.as_str() == text && shown.unread == unread)
}

/// The first five bodies are those of RFC 2047, section 8, and the next is that of RFC 2231, section 5. The five
/// after them were made by Python's `email.header`.
#[test]
fn shows_bodies(rt: HostRuntime) -> Result<(), AllocError> {
    let bodies: [(&[u8], &str, usize); 24] = [
        (b"(=?ISO-8859-1?Q?a?=)", "(a)", 0),
        (b"(=?ISO-8859-1?Q?a?= b)", "(a b)", 0),
        (b"(=?ISO-8859-1?Q?a?=  =?ISO-8859-1?Q?b?=)", "(ab)", 0),
        (b"(=?ISO-8859-1?Q?a?=\r\n    =?ISO-8859-1?Q?b?=)", "(ab)", 0),
        (b"(=?ISO-8859-1?Q?a?= =?ISO-8859-2?Q?_b?=)", "(a b)", 0),
        (
            b"=?US-ASCII*EN?Q?Keith_Moore?= <moore@cs.utk.edu>",
            "Keith Moore <moore@cs.utk.edu>",
            0,
        ),
        (
            b"=?iso-8859-1?q?M=FCller=2C_Gr=F6=DFe?=",
            "Müller, Größe",
            0,
        ),
        (
            b"=?iso-8859-2?q?=AElu=BBou=E8k=FD_k=F9=F2?=",
            "Žluťoučký kůň",
            0,
        ),
        (b"=?koi8-r?b?8NLJ18XULCDNydI=?=", "Привет, мир", 0),
        (b"=?windows-1253?b?xfXx/vDn?=", "Ευρώπη", 0),
        (
            b"=?windows-1252?q?=93Zahlung=94_=96_5_=80?=",
            "“Zahlung” – 5 €",
            0,
        ),
        (
            b"=?utf-8?b?5pel5pys6Kqe44Gu5Lu25ZCN?=\r\n =?utf-8?b?44Gu5L6L?=",
            "日本語の件名の例",
            0,
        ),
        // a character of UTF-8 that is split over two words
        (b"=?utf-8?q?caf=C3?= =?utf-8?q?=A9?=", "café", 0),
        // beside a comma, in quotation marks, and directly beside another word
        (
            b"\"=?utf-8?q?M=C3=BCller?=\", =?utf-8?q?=C3=96z?=,x",
            "\"Müller\", Öz,x",
            0,
        ),
        (b"=?utf-8?q?a?==?latin1?q?=FC?=", "aü", 0),
        // padding left out, and blanks in Q text
        (b"=?utf8?b?w7w?=", "ü", 0),
        (b"=?utf-8?q?two words?=", "two words", 0),
        // octets above 127 that are UTF-8, and such that are not
        (b"f\xC3\xBCr", "für", 0),
        (b"f\xFCr", "f\u{FFFD}r", 1),
        // words that cannot be read
        (b"=?x-unknown?q?a?= b", "=?x-unknown?q?a?= b", 1),
        (b"=?utf-8?q?=4?=", "=?utf-8?q?=4?=", 1),
        (b"=?utf-8?x?a?=", "=?utf-8?x?a?=", 1),
        (b"=?windows-1252?q?a=81?=", "a\u{FFFD}", 1),
        // no word
        (b"what is x=?", "what is x=?", 0),
    ];
    for (body, text, unread) in bodies {
        assert!(rt; shows(rt.alloc(), body, text, unread)?, "{text}");
    }
    Ok(())
}

/// A message with its names in several charsets.
const MESSAGE: &[u8] =
    b"From: =?iso-8859-1?q?J=FCrgen_Stra=DFe?= <j@example.org>\r\nSender: office@example.org\r\nTo: a@example.org\r\nCC: =?utf-8?q?Andre=CC=81?= <b@example.org>\r\nSubject: first\r\nsubject: =?koi8-r?b?8NLJ18XULCDNydI=?=\r\nX-Note: hidden\r\nDate: Sat, 28 Nov 2026 04:00:00 +0000\r\n\r\nbody text\r\n";

fn answers(
    alloc: Global,
    sender: &str,
    recipient: &str,
    subject: &str,
) -> Result<bool, FieldQuestionFault> {
    let given = |text: &str| !text.is_empty();
    let question = FieldQuestion::new(
        alloc,
        if given(sender) { Some(sender) } else { None },
        if given(recipient) {
            Some(recipient)
        } else {
            None
        },
        if given(subject) { Some(subject) } else { None },
    )?;
    Ok(question.judge(alloc, MESSAGE)?.is_found)
}

#[test]
fn answers_questions(rt: HostRuntime) -> Result<(), FieldQuestionFault> {
    for (sender, recipient, subject, answer) in [
        ("JÜRGEN", "", "", true),
        // decomposed, and with the full folding of ß
        ("ju\u{308}rgen STRASSE", "", "", true),
        ("jurgen", "", "", false),
        ("office", "", "", true),
        ("", "andré", "", true),
        ("", "", "ПРИВЕТ", true),
        ("", "", "first", true),
        ("", "", "hidden", false),
        ("", "", "body", false),
        ("", "office", "", false),
        ("jürgen", "andré", "мир", true),
        ("jürgen", "nobody", "мир", false),
    ] {
        assert_eq!(rt;
            answers(rt.alloc(), sender, recipient, subject)?,
            answer,
            "{sender} {recipient} {subject}"
        );
    }
    Ok(())
}

/// The first subject is that of RFC 5322, section 2.2.3, folded with a tab.
#[test]
fn takes_white_space_as_one_space(rt: HostRuntime) -> Result<(), FieldQuestionFault> {
    let alloc = rt.alloc();
    let subjects: [(&[u8], &str, bool); 8] = [
        (
            b"Subject: This\r\n\tis a test\r\n\r\n",
            "this is a test",
            true,
        ),
        (
            b"Subject: This\r\n is a test\r\n\r\n",
            "this\tis  a test",
            true,
        ),
        (
            b"Subject: This\r\n \t is  a test\r\n\r\n",
            "This is a test",
            true,
        ),
        (
            b"Subject: =?utf-8?q?This=C2=A0is?= a test\r\n\r\n",
            "this is a test",
            true,
        ),
        (b"Subject: This is a test\r\n\r\n", "is\u{A0}a", true),
        (b"Subject: This\r\n\tis a test\r\n\r\n", "thisis", false),
        (b"Subject: Thisis a test\r\n\r\n", "this is", false),
        (b"Subject: This is a test\r\n\r\n", "test ", false),
    ];
    for (message, subject, answer) in subjects {
        let question = FieldQuestion::new(alloc, None, None, Some(subject))?;
        assert_eq!(rt;
            question.judge(alloc, message)?.is_found,
            answer,
            "{subject}"
        );
    }
    Ok(())
}

#[test]
fn refuses_blank_texts(rt: HostRuntime) {
    for text in ["", " ", "\t \r\n", "\u{A0}"] {
        let question = FieldQuestion::new(rt.alloc(), Some("a"), Some(text), None);
        assert!(rt;
            matches!(
                question,
                Err(FieldQuestionFault::Empty(FieldGroup::Recipient))
            )
        );
    }
}

#[test]
fn counts_what_is_unread(rt: HostRuntime) -> Result<(), FieldQuestionFault> {
    let alloc = rt.alloc();
    let question = FieldQuestion::new(alloc, Some("a"), None, None)?;
    let message: &[u8] = b"From: =?x-unknown?q?b?=\nSubject: =?x-unknown?q?b?=\nSender: \xFF\n\n";
    let found = question.judge(alloc, message)?;
    assert!(rt; !found.is_found);
    assert_eq!(rt; found.unread, 2);
    Ok(())
}

#[test]
fn shows_first_fields(rt: HostRuntime) -> Result<(), AllocError> {
    let alloc = rt.alloc();
    if let Some(shown) = sender(alloc, MESSAGE)? {
        assert_eq!(rt; shown.text.as_str(), "Jürgen Straße <j@example.org>");
    }
    if let Some(shown) = subject(alloc, MESSAGE)? {
        assert_eq!(rt; shown.text.as_str(), "first");
    }
    if let Some(shown) = date(alloc, MESSAGE)? {
        assert_eq!(rt; shown.text.as_str(), "Sat, 28 Nov 2026 04:00:00 +0000");
    }
    let none = sender(alloc, b"To: a\n\n")?;
    assert!(rt; none.is_none());
    Ok(())
}

/// A long body that begins words without end is read in time linear in it.
#[test]
fn reads_hostile_bodies(rt: HostRuntime) -> Result<(), AllocError> {
    let alloc = rt.alloc();
    for piece in [
        "=?",
        "=?x?q?",
        "=?utf-8?q?a",
        "=?utf-8?q?a?= ",
        " ",
        "=?utf-8?q?a?=\t\t\t\t",
    ] {
        let mut body = Vec::new(alloc);
        for _ in 0..150_000 {
            body.extend_from_slice(piece.as_bytes())?;
        }
        let shown = display(alloc, body.as_slice())?;
        assert!(rt; shown.text.len() <= body.len());
    }
    Ok(())
}

/// The words that rules see undecoded in a message, as `Subject windows-1252,`.
fn undecoded(alloc: Global, message: &[u8]) -> Result<String, AllocError> {
    let mut text = String::new(alloc);
    for word in undecoded_words(alloc, message)? {
        let (field, charset) = (word.field().escape_ascii(), word.charset().escape_ascii());
        text.push_str(format!(in alloc; "{field} {charset},")?.as_str())?;
    }
    Ok(text)
}

#[test]
fn names_undecoded_words(rt: HostRuntime) -> Result<(), AllocError> {
    let messages: [(&[u8], &str); 10] = [
        (
            b"Subject: =?windows-1252?q?=93a=94?=\n\n",
            "Subject windows-1252,",
        ),
        (
            b"From: =?KOI8-R?b?8NLJ?=\r\n =?koi8-r?b?8NLJ?= <a@example.org>\r\nfrom: =?koi8-r?q?a?=\r\n\r\n",
            "From KOI8-R,",
        ),
        (
            b"Subject: a\nX-Note: =?gb2312?b?xOO6ww==?= b\n\n",
            "X-Note gb2312,",
        ),
        // rules decode these
        (b"Subject: =?utf-8?q?a?= (=?iso-8859-1?q?=FC?=)\n\n", ""),
        // a part of ISO 8859 of which they read the octets below 128
        (
            b"Subject: =?iso-8859-15?q?a=A4?= =?iso-8859-15?q?a?=\n\n",
            "Subject iso-8859-15,",
        ),
        // in quotation marks, with a language, and with a blank in its text
        (
            b"From: \"=?utf-8?q?a?=\" <a@example.org>\nSubject: =?us-ascii*en?q?a?=\nTo: =?utf-8?q?a b?=\n\n",
            "From utf-8,Subject us-ascii*en,To utf-8,",
        ),
        // padding left out
        (b"Subject: =?utf-8?b?w7w?=\n\n", "Subject utf-8,"),
        // no words
        (b"Subject: =?x?= =??q?a?= =?utf-8?q?a\n\n", ""),
        // in the body
        (b"Subject: a\n\nSubject: =?windows-1252?q?a?=\n", ""),
        (b"", ""),
    ];
    for (message, words) in messages {
        assert_eq!(rt; undecoded(rt.alloc(), message)?.as_str(), words);
    }
    Ok(())
}

#[test]
fn names_twenty_undecoded_words(rt: HostRuntime) -> Result<(), AllocError> {
    let alloc = rt.alloc();
    let mut message = Vec::new(alloc);
    for number in 0..30 {
        message.extend_from_slice(format!(in alloc; "X-{number}: =?x?q?a?=\n")?.as_bytes())?;
    }
    let words = undecoded_words(alloc, message.as_slice())?;
    assert_eq!(rt; words.len(), 20);
    Ok(())
}
