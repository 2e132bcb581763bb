//! How due dates are written.

ghost use Rattle.std.specs.Prelude.{◌≡◌, ◌++◌, pos, codes, decimal, option_map, MatchOption};
ghost use Rattle.jiff.specs.Words.{epoch_day, IsBetween};
ghost use Rattle.class_plan.specs.Calendar.{number_of_day};
ghost use Rattle.session_protocol.specs.Dates.{civil_octets, day_octets, due_octets, two_digits};
ghost use Rattle.session_protocol.specs.Written.{Adds};

use crate::buffer::{ReplyBuffer, buffer_all, buffer_pieces};
use crate::stream::{Sink, WriteFault};
use class_plan::{Date, date_of, day_number};
use itoa::Buffer;

/// The date that is written for a due date: that date, where it is one of the years 1970 to 9999; otherwise none.
fn told_date(due: Date) -> Option<Date>
    ensures { MatchOption result (¬ (IsBetween (pos 0) (pos 2932896) (epoch_day due))) (λ d.
        IsBetween (pos 0) (pos 2932896) (epoch_day d) × (epoch_day d ≡ epoch_day due)) }
{
    date_of(day_number(due))
}

/// What stands between the parts of a date: a dash, and a zero where the part after it has one digit.
fn dash_before(part: u8) -> &'static [u8]
    ensures { result.now ++ decimal part ≡ codes "-" ++ two_digits part }
{
    if part < 10 { b"-0" } else { b"-" }
}

/// Adds a date by its year, its month and its day, and the end of its line.
fn buffer_civil<K: Sink>(
    sink: &mut K,
    buffer: &mut ReplyBuffer,
    year: u16,
    month: u8,
    day: u8,
) -> Result<(), WriteFault>
    ensures { Adds K.Sink result sink.old buffer.old
        (civil_octets (record { year = year; month = month; day = day }) ++ codes "\n")
        sink.new buffer.new }
{
    let mut year_text = Buffer::new();
    let year_text = year_text.format(year).as_bytes();
    let mut month_text = Buffer::new();
    let month_text = month_text.format(month).as_bytes();
    let mut day_text = Buffer::new();
    let day_text = day_text.format(day).as_bytes();
    buffer_pieces(
        sink,
        buffer,
        &[
            year_text,
            dash_before(month),
            month_text,
            dash_before(day),
            day_text,
            b"\n".as_slice(),
        ],
    )
}

/// Adds a date and the end of its line.
fn buffer_date<K: Sink>(
    sink: &mut K,
    buffer: &mut ReplyBuffer,
    date: Date,
) -> Result<(), WriteFault>
    requires { IsBetween (pos 0) (pos 2932896) (epoch_day date) }
    ensures { Adds K.Sink result sink.old buffer.old
        (day_octets (number_of_day date) ++ codes "\n") sink.new buffer.new }
{
    let year = date.year().unsigned_abs();
    let month = date.month().unsigned_abs();
    let day = date.day().unsigned_abs();
    buffer_civil(sink, buffer, year, month, day)
}

/// Adds the due date of a record as `YYYY-MM-DD` and the LF. It is `never` where there is no due date, or one outside
/// the years 1970 to 9999.
pub fn buffer_due<K: Sink>(
    sink: &mut K,
    buffer: &mut ReplyBuffer,
    due: Option<Date>,
) -> Result<(), WriteFault>
    ensures { Adds K.Sink result sink.old buffer.old
        (due_octets (option_map epoch_day due) ++ codes "\n") sink.new buffer.new }
{
    let Some(date) = due else {
        return buffer_all(sink, buffer, b"never\n");
    };
    match told_date(date) {
        Some(date) => buffer_date(sink, buffer, date),
        None => buffer_all(sink, buffer, b"never\n"),
    }
}
