//! A text for each number of a refusal and for each fault of a run: what the rule requires, and what to do.

ghost use Rattle.std.specs.Prelude.{◌≡◌, is_some};
ghost use Rattle.tool_texts.specs.Numbers.{size_refusals, text_refusals, check_refusals, plan_refusals, image_refusals, session_refusals, store_refusals, desk_refusals, run_faults, is_among, is_refusal};

/// The text of a refusal's number; none where no refusal has that number.
#[tactic(auto, using(crate::proofs::Choices::is_some_option_or))]
pub fn refusal_text(number: u8) -> Option<&'static str>
    ensures { is_some result ≡ is_refusal number }
{
    size_text(number)
        .or(script_text(number))
        .or(check_text(number))
        .or(plan_text(number))
        .or(image_text(number))
        .or(session_text(number))
        .or(store_text(number))
        .or(desk_text(number))
}

/// The text of a fault of a run, 1 to 5, which is a part of its outcome; none for any other number.
pub fn fault_text(number: u8) -> Option<&'static str>
    ensures { is_some result ≡ is_among run_faults number }
{
    let text = match number {
        1 =>
            "a fileinto names a path that is no open class, so nothing but unfiled captured the message; add the class or correct the path",
        2 =>
            "an include names a script that is not there; keep a script under that name, or write :optional",
        3 =>
            "a script includes one that is still running, itself perhaps; take one of the includes out, or write :once",
        4 =>
            "an include would have made nine scripts run inside one another, and eight may; include fewer of them",
        5 =>
            "the script and all that it includes are too heavy; shorten the lists of keys, or include fewer scripts",
        _ => return None,
    };
    Some(text)
}

/// Refusals of what is too large.
fn size_text(number: u8) -> Option<&'static str>
    ensures { is_some result ≡ is_among size_refusals number }
{
    let text = match number {
        1 => "the message has more than 8,388,608 octets; a longer one cannot be read",
        5 =>
            "the script and all that it includes are too heavy; shorten the lists of keys, or include fewer scripts",
        _ => return None,
    };
    Some(text)
}

/// Refusals of a script's text.
fn script_text(number: u8) -> Option<&'static str>
    ensures { is_some result ≡ is_among text_refusals number }
{
    let text = match number {
        10 => "the script is not UTF-8; save it in that encoding",
        11 =>
            "no word, string, number or mark begins with this octet; take it out, or put it into a string (an octet 0, and a CR without LF, may stand nowhere)",
        12 =>
            "the string that begins here is not closed; end it with a quotation mark, or a text: string with a line that is a single dot",
        13 => "the comment that begins here is not closed; end it with */",
        14 =>
            "the number that begins here is above 9,223,372,036,854,775,807 with its K, M or G; write a smaller one",
        15 => "the script has more than 262,144 octets; split it, and include the parts",
        16 => "the string that begins here has more than 65,535 octets; write shorter ones",
        20 =>
            "the script cannot go on like this; look for a missing ; or bracket or quotation mark just before this place",
        21 =>
            "more than 32 blocks or more than 32 tests stand inside one another here; write fewer levels",
        _ => return None,
    };
    Some(text)
}

/// Refusals by the rules of well-made scripts.
fn check_text(number: u8) -> Option<&'static str>
    ensures { is_some result ≡ is_among check_refusals number }
{
    let text = match number {
        30 =>
            "a require names something that is no capability; there are fileinto, copy, include, comparator-i;octet and comparator-i;ascii-casemap",
        31 => "a require stands after another command; write all of them at the script's beginning",
        32 =>
            "there is no such command; there are require, if, elsif, else, stop, keep, discard, return, fileinto and include",
        33 =>
            "there is no such test; there are header, exists, size, not, allof, anyof, true and false",
        34 =>
            "a command or a tag is used whose capability is not required; name it in a require at the script's beginning",
        35 =>
            "a tag stands where it may not: the command or test has no such tag, or a string or number stands before it",
        36 =>
            "a tag stands twice, or beside another of its kind, as :is beside :contains; leave one of them",
        37 =>
            "the strings or numbers are not those that the command or test takes, or a tag's string or a needed tag is missing",
        38 => "there is no such comparator; there are i;octet and i;ascii-casemap",
        39 => "an elsif or else does not directly follow the block of an if or elsif",
        40 =>
            "a block is missing or stands where none may; if, elsif and else have one, and every other command ends with a semicolon",
        41 =>
            "a test is missing or stands where none may; if, elsif and not take one without brackets, allof and anyof a list in brackets",
        _ => return None,
    };
    Some(text)
}

/// Refusals of plans.
fn plan_text(number: u8) -> Option<&'static str>
    ensures { is_some result ≡ is_among plan_refusals number }
{
    let text = match number {
        50 => "the plan is not UTF-8 or not TOML; look for a missing quotation mark or bracket",
        51 =>
            "the plan has another key than root and class with path, open and schedule, lacks root or a path, has another kind of value, or closes unfiled",
        52 =>
            "a path is not 1 to 8 segments of 1 to 40 of the letters a to z, digits and -, joined by /",
        53 => "the path without its last segment is no class; add that class first",
        54 => "the path is a class already",
        55 =>
            "a schedule is neither permanent nor a count, a unit and an action, as in 7 years destroy or 7 years destroy year-end, with a count in the unit's range",
        56 => "there would be more than 4,096 classes",
        57 =>
            "the new plan leaves out a path of the plan before; list it, and close it by open = false if nothing is to be filed there",
        58 => "the plan has more than 1,048,576 octets; shorten it",
        59 =>
            "the path is no class of the plan; name a class of it, open or closed, or add the class first",
        _ => return None,
    };
    Some(text)
}

/// Refusals of images.
fn image_text(number: u8) -> Option<&'static str>
    ensures { is_some result ≡ is_among image_refusals number }
{
    let text = match number {
        60 =>
            "these octets are not the form of an image; see that the file is whole and that it is one",
        61 => "the image has more than 16,777,216 octets",
        62 =>
            "an instruction names a text, number, slot, place or procedure that is not there or has an operand outside its values, or a jump leaves its procedure, or procedures overlap, or there are more than 64 slots or 256 procedures",
        63 =>
            "a jump goes back or to itself, or a call does not go to a later procedure; jumps and calls may only go forward",
        64 =>
            "an instruction does not find its operands on the stack, two ways to a place leave different stacks, the stack is deeper than 32, or it is not empty at a CALL or RETURN",
        65 =>
            "there is no instruction, or a run may go past the last one, or on into the next procedure; end each way with STOP, FAULT or in version 2 RETURN",
        66 =>
            "the budget is 0 or above 65,535, in version 2 above 1,000,000, or a way through the code is longer than it; declare a greater one",
        _ => return None,
    };
    Some(text)
}

/// Refusals of lines of a session.
fn session_text(number: u8) -> Option<&'static str>
    ensures { is_some result ≡ is_among session_refusals number }
{
    let text = match number {
        70 =>
            "the line's first word is no command; commands are in capitals, and the length before a payload may be wrong",
        71 =>
            "a word of the line, or the number of words, is not what the command takes; words are separated by single spaces",
        72 => "the input ended inside a line or a payload; the length of the payload may be wrong",
        73 => "a line has more than 512 octets; the length of the payload before it may be wrong",
        _ => return None,
    };
    Some(text)
}

/// Refusals of the store.
fn store_text(number: u8) -> Option<&'static str>
    ensures { is_some result ≡ is_among store_refusals number }
{
    let text = match number {
        80 => "there is no record of that number",
        81 => "a hold keeps the record; it can be destroyed once its last hold is released",
        82 => "the record is due later than that day",
        83 => "the schedule of the record's class does not destroy; change the plan if it should",
        84 => "the record is destroyed already; its number, class and day are all that is left",
        85 => "the record has no hold of that name",
        86 => "the record has a hold of that name already",
        87 => "the record numbers are used up: none may pass 4,294,967,295; begin another store",
        88 =>
            "the file is no archive of a version that is known, or its rows are no archive's; nothing was changed in it",
        89 =>
            "the database refused the command, which changed nothing; look for a full disk, another process at the file, or a damaged file",
        _ => return None,
    };
    Some(text)
}

/// Refusals of the desk, and no memory (99).
fn desk_text(number: u8) -> Option<&'static str>
    ensures { is_some result ≡ is_among desk_refusals number }
{
    let text = match number {
        90 => "sixty-four captures are in flight; finish one of them first",
        91 => "no capture in flight has that ticket",
        92 => "the capture has not ended; give it more turns",
        93 => "the officer has no script of that name",
        94 => "the moment is not one of the years 1970 to 2199, in seconds since 1970",
        95 => "the message has more than 8,388,608 octets",
        96 => "the name is new, and thirty-two scripts are there already; replace one of them",
        97 => "the tickets of this session are used up; begin another session",
        99 => "memory ran out, and nothing was changed; try again with more of it",
        _ => return None,
    };
    Some(text)
}
