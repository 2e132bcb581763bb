//! The interface that a session talks to. Its one implementation is in `registry` of `filing_desk`.

ghost use Rattle.std.specs.Prelude.{Ok};
ghost use Rattle.record_archive.specs.Calls.{Keeper};
ghost use Rattle.desk_commands.specs.Calls.{Calls, CallsOn, CallsWith, CallsWithTwo};
ghost use Rattle.desk_commands.specs.Limits.{greatest_image, greatest_message, greatest_plan, greatest_script};
ghost use Rattle.desk_commands.specs.Office as office;
ghost use Rattle.desk_commands.specs.Standing.{Standing};
ghost use Rattle.desk_commands.specs.Standing as commands;
ghost use Rattle.desk_commands.specs.CallAnswers.{answer_of_capture, answer_of_done, answer_of_lines, answer_of_outcome, answer_of_ticket, answer_of_turn};

use crate::fault::DeskFault;
use crate::payload::Payload;
use crate::results::{Capture, Turn};
use jiff::civil::Date;
use record_archive::Line;
use sieve_meaning::Outcome;

/// An office that captures messages as records: an archive, scripts and officers, and captures in flight.
///
/// Each call is a command of `Standing` in `specs/`. It is answered as `Step` says there, and leads from a state that
/// the office represents to one that it represents afterwards. That holds on any disk, except for an answer that comes
/// from the archive (`ArchiveAnswers` in `specs/`): it is right where the disk returns what was written to it.
///
/// Besides the refusals of each call, all calls but `deactivate` may be refused with 99 (no memory). `add_class`,
/// `set_plan`, `hold`, `release`, `due`, `destroy` and `finish` may also be refused with 89 (the database). On any disk
/// a refusal changes nothing, except that a `turn` refused with 99 keeps the steps that were made before. A crash inside
/// a call leaves the archive as it was before or as the command makes it.
pub trait Registry {
    /// Whether the disk returns what was written to it, the states that an office represents, what a crash may leave of
    /// the archive, and the archive that an opening finds in it.
    ghost keeper: { Keeper Self Standing };

    /// Adds a class that is open and has no schedule of its own. Refused with the smallest that applies of 52 (the path
    /// is not well made), 53 (no parent class), 54 (already there) and 56 (4,096 classes are there).
    fn add_class(&mut self, path: &[u8]) -> Result<(), DeskFault>
        ensures { Calls keeper self.old (commands.plain (office.add_class path.now))
            (answer_of_done result) self.new };

    /// Takes over the plan of a text, a TOML document. Refused in this order: 58 for more than 1,048,576 octets, the
    /// smallest of 50 to 56 that applies to the text, and 57 where it drops a path of the plan so far.
    fn set_plan(&mut self, text: &Payload) -> Result<(), DeskFault>
        ensures { CallsWith keeper self.old greatest_plan text.now
            (λ t. commands.plain (office.set_plan t)) (answer_of_done result) self.new };

    /// Keeps a script of an officer under a name, in the place of the one that has the name. Refused in this order: by
    /// its text (10 to 16, 20, 21), by the check (30 to 41), and where thirty-two scripts of the officer have other
    /// names (96).
    fn set_script(&mut self, officer: &[u8], name: &[u8], text: &Payload) -> Result<(), DeskFault>
        ensures { CallsWith keeper self.old greatest_script text.now
            (λ t. commands.plain (office.set_script officer.now name.now t))
            (answer_of_done result) self.new };

    /// The same for the global scripts, which scripts of all officers include by `:global` (RFC 6609, section 3.2).
    fn set_global(&mut self, name: &[u8], text: &Payload) -> Result<(), DeskFault>
        ensures { CallsWith keeper self.old greatest_script text.now
            (λ t. commands.plain (office.set_global name.now t)) (answer_of_done result) self.new };

    /// Sets the script of that name as an officer's program: the one that has the name when a capture begins. Refused
    /// where the officer has no script of that name (93).
    fn activate(&mut self, officer: &[u8], name: &[u8]) -> Result<(), DeskFault>
        ensures { Calls keeper self.old (commands.plain (office.activate officer.now name.now))
            (answer_of_done result) self.new };

    /// Sets no program for an officer. It is never refused.
    fn deactivate(&mut self, officer: &[u8])
        ensures { Calls keeper self.old (commands.plain (office.deactivate officer.now))
            (answer_of_done (Ok tt)) self.new };

    /// Sets an image as an officer's program. Refused in this order: by its length (61 for more than 16,777,216
    /// octets), its form (60) and its code (62 to 66).
    fn set_image(&mut self, officer: &[u8], image: &Payload) -> Result<(), DeskFault>
        ensures { CallsWith keeper self.old greatest_image image.now
            (λ i. commands.plain (office.set_image officer.now i))
            (answer_of_done result) self.new };

    /// What a script captures a message in: a dry run that stores nothing. Refused in this order: by the script's text
    /// (10 to 16, 20, 21), by the check (30 to 41), and for a message of more than 8,388,608 octets (95). The script
    /// can include the global scripts, and no others. A script that is too heavy has the outcome fault 5.
    fn file(&mut self, script: &Payload, message: &Payload) -> Result<Outcome, DeskFault>
        ensures { CallsWithTwo keeper self.old (greatest_script, greatest_message)
            script.now message.now (λ s m. commands.plain (office.file s m))
            (answer_of_outcome result) self.new };

    /// What an image captures a message in: a dry run that stores nothing. Refused in this order: by the image's length
    /// (61 for more than 16,777,216 octets), its form (60), its code (62 to 66), and for a message of more than
    /// 8,388,608 octets (95).
    fn try_image(&self, image: &Payload, message: &Payload) -> Result<Outcome, DeskFault>
        ensures { CallsWithTwo keeper self.now (greatest_image, greatest_message)
            image.now message.now (λ i m. commands.plain (office.try_image i m))
            (answer_of_outcome result) self.now };

    /// Places a hold of that name on a record. Refused where there is no such record (80), where the record is
    /// destroyed (84), and where a hold of that name is on it already (86).
    fn hold(&mut self, name: &[u8], number: u64) -> Result<(), DeskFault>
        ensures { Calls keeper self.old (commands.plain (office.hold name.now number))
            (answer_of_done result) self.new };

    /// Ends the hold of that name on a record. Refused where there is no such record (80) or no such hold (85).
    fn release(&mut self, name: &[u8], number: u64) -> Result<(), DeskFault>
        ensures { Calls keeper self.old (commands.plain (office.release name.now number))
            (answer_of_done result) self.new };

    /// The records without a hold that are due by a day, ordered by due day and then by number. The caller ensures that
    /// the day is in the years 1970 to 9999.
    fn due(&mut self, day: Date) -> Result<Vec<Line>, DeskFault>
        ensures { CallsOn keeper self.old day (λ n. commands.plain (office.due n))
            (answer_of_lines result) self.new };

    /// Destroys a record. Refused in this order: there is no such record (80), it is destroyed (84), a hold keeps it
    /// (81), its schedule's action is not to destroy (83), it is not due by the day (82). The caller ensures that the
    /// day is in the years 1970 to 9999. The message is removed with the last of its records that was not destroyed.
    fn destroy(&mut self, number: u64, day: Date) -> Result<(), DeskFault>
        ensures { CallsOn keeper self.old day (λ n. commands.plain (office.destroy number n))
            (answer_of_done result) self.new };

    /// Begins a capture of a message by an officer's program at a moment, in seconds since 1970-01-01T00:00:00Z.
    /// Answers its ticket, and the budget of its run in steps. Refused in this order: where the moment is after 2199
    /// (94), the message has more than 8,388,608 octets (95), sixty-four captures are in flight (90), or ticket
    /// 4,294,967,295 was given (97).
    fn begin(
        &mut self,
        officer: &[u8],
        moment: u64,
        message: Payload,
    ) -> Result<(u32, u32), DeskFault>
        ensures { CallsWith keeper self.old greatest_message message
            (λ m. commands.begin officer.now moment m) (answer_of_ticket result) self.new };

    /// Lets a capture make `count` more steps, or fewer where it comes to its end. Refused where no capture in flight
    /// has the ticket (91). Where there is no memory (99), the steps that were made before are kept.
    fn turn(&mut self, ticket: u64, count: u32) -> Result<Turn, DeskFault>
        ensures { Calls keeper self.old (commands.turn ticket count)
            (answer_of_turn result) self.new };

    /// Makes the records of a capture that has come to its end, and gives up its ticket. Refused where no capture in
    /// flight has the ticket (91), where the capture has not come to its end (92), and where the numbers of records are
    /// used up (87). After a refusal the ticket is kept.
    fn finish(&mut self, ticket: u64) -> Result<Capture, DeskFault>
        ensures { Calls keeper self.old (commands.finish ticket)
            (answer_of_capture result) self.new };
}
