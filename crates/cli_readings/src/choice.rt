//! What is asked of the records that a command is about.

ghost use Rattle.std.specs.Prelude.{◌≡◌, IfOk};
ghost use Rattle.cli_choice.specs.Questions.{IsTestTyped, fields_typed};

use cli_choice::{Questions, QuestionsFault};
use cli_console::{Failure, Status, judge_day, refusal_words, tell};
use command_lines::archives::Choice;
use mail_display::FieldGroup;
use record_question::QuestionFault;
use sieve_text::{ScanRefusal, TextRefusal, scan};
use std::alloc::{AllocError, Global};
use tool_findings::{finding_in_test, impossible_fields, push_words};
use tool_texts::{Shown, place_of, put};

/// Why a text does not go on as a test does, which is seen at an octet.
fn syntax_words(test: &str, octet: Option<u8>) -> &'static str {
    let front = test.trim_start();
    if front.is_empty() {
        return "there is no test; write one as in a rule, as header :contains \"subject\" \"invoice\"";
    }
    if front.starts_with('[') || front.starts_with('"') {
        return "a test begins with its name, which is one of header, exists, size, not, allof, anyof, true and false";
    }
    match octet {
        Some(b';' | b'{') => {
            "a test alone is wanted, as it stands after if in a rule, and no command; leave out what is here and after it"
        }
        _ => {
            "the test cannot go on like this; look for a missing comma, bracket or quotation mark just before this place, and for a mark behind the test"
        }
    }
}

/// Why a text has something that is no token, at an octet.
fn scan_words(refusal: ScanRefusal, octet: Option<u8>) -> &'static str {
    match (refusal, octet) {
        (ScanRefusal::NotUtf8, _) => "the test is not UTF-8",
        (ScanRefusal::ScriptTooLong, _) => {
            "the test has more than 262,144 octets; write a shorter one"
        }
        (_, Some(b'\'')) => "a text in a test stands between quotation marks, as \"invoice\"",
        (refusal, _) => refusal_words(refusal.number()),
    }
}

/// Why a text is not exactly one test, which is seen at an offset in octets.
fn words_of(test: &str, refusal: TextRefusal, offset: usize) -> &'static str {
    let octet = test.as_bytes().get(offset).copied();
    match refusal {
        TextRefusal::Scan(refusal) => scan_words(refusal, octet),
        TextRefusal::Syntax => syntax_words(test, octet),
        TextRefusal::Nesting =>
            "more than 32 tests stand inside one another here; write fewer levels",
    }
}

/// Adds where a test is refused, at an offset in octets, and the number of the refusal.
fn put_refusal(text: &mut Shown, test: &str, offset: usize, number: u8) -> Result<(), AllocError> {
    let place = place_of(test.as_bytes(), offset);
    put!(text; "--where:" value(&place.line) ":" value(&place.column) ": " value(&number) ": ")
}

/// That a test is refused, by its line and column and the number of the refusal.
fn refused_test(alloc: Global, test: &str, fault: QuestionFault) -> Result<Shown, AllocError> {
    let mut text = Shown::new(alloc);
    match fault {
        QuestionFault::NoMemory => return Err(AllocError),
        QuestionFault::Text(refusal, at) => {
            put_refusal(&mut text, test, at, refusal.number())?;
            text.words(words_of(test, refusal, at))?;
        }
        QuestionFault::Test(fault) => {
            let finding = finding_in_test(alloc, test.as_bytes(), fault)?;
            put_refusal(&mut text, test, finding.place, finding.number)?;
            push_words(&mut text, test.as_bytes(), &finding)?;
        }
    }
    Ok(text)
}

/// That the text of an option is empty.
fn empty_text(alloc: Global, group: FieldGroup) -> Result<Shown, AllocError> {
    let mut text = Shown::new(alloc);
    text.words(match group {
        FieldGroup::Sender => "--sender",
        FieldGroup::Recipient => "--recipient",
        FieldGroup::Subject => "--subject",
    })?;
    text.words(": the text is empty or only white space, which any field would have")?;
    Ok(text)
}

/// The failure of what is asked of messages. The test is as it is typed.
fn question_failure(alloc: Global, test: Option<&str>, fault: QuestionsFault) -> Failure {
    match fault {
        QuestionsFault::NoMemory => Failure::NoMemory,
        QuestionsFault::Test(fault) => {
            let test = test.unwrap_or("");
            Failure::shown(Status::Usage, refused_test(alloc, test, fault))
        }
        QuestionsFault::EmptyText(group) => {
            Failure::shown(Status::Usage, empty_text(alloc, group))
        }
    }
}

/// That no field can have a name that stands in a test, at an offset in octets.
fn impossible_words(
    alloc: Global,
    test: &str,
    name: &[u8],
    offset: usize,
) -> Result<Shown, AllocError> {
    let place = place_of(test.as_bytes(), offset);
    let mut text = Shown::new(alloc);
    put!(text; "--where:" value(&place.line) ":" value(&place.column)
        ": warning: no field can have the name " quoted(name))?;
    Ok(text)
}

/// Warns of each name in a good test that no field of a message can have, as `mailfile-tool check` does of those in a rule.
fn warn_of_fields(rt: &HostRuntime, test: &str) -> Result<(), AllocError> {
    let alloc = rt.alloc();
    let Ok(tokens) = scan(alloc, test.as_bytes()) else {
        return Ok(());
    };
    for (name, at) in impossible_fields(alloc, tokens.as_slice())?.iter() {
        tell(rt, &impossible_words(alloc, test, *name, *at)?);
    }
    Ok(())
}

/// Finds that the day of a choice has come, and reads what it asks of messages. It warns of names in a test that no field can
/// have, for which nothing is found.
pub fn judge_choice(rt: &HostRuntime, choice: &Choice<'_>) -> Result<Questions, Failure>
    ensures test { IfOk result (λ q. IsTestTyped choice.now.test q.test) }
    ensures fields { IfOk result (λ q. q.fields ≡ fields_typed choice.now) }
{
    if let Some(day) = choice.due {
        judge_day(rt, day)?;
    }
    match Questions::read(rt.alloc(), choice) {
        Ok(questions) => {
            if let Some(test) = choice.test {
                warn_of_fields(rt, test)?;
            }
            Ok(questions)
        }
        Err(fault) => Err(question_failure(rt.alloc(), choice.test, fault)),
    }
}
