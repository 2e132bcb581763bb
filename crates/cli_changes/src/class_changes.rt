//! Which classes a new plan adds, closes, opens, or gives another schedule.

ghost use Rattle.std.specs.Prelude.{◌≡◌, ◌++◌, option_map, IfOk, OnOk};
ghost use Rattle.cli_changes.specs.ClassChanges.{before_words, between as between_of, class_in, class_line, class_lines as class_lines_of, class_word, is_same_schedule, line_if_changed, schedule_words, state_view, word_for, word_words};

use class_plan::{Plan, schedule_text};
use std::alloc::{AllocError, Global};
use tool_texts::{Shown, put};

/// What a plan says of a class.
#[derive(Drop)]
struct ClassState {
    is_open: bool,
    /// The text of its schedule: its own, or the one that it takes from above.
    schedule: Vec<u8>,
}

impl ClassState {
    /// What a plan says of the class of a path, if it has one.
    fn of(alloc: Global, plan: &Plan, path: &[u8]) -> Result<Option<ClassState>, AllocError>
        ensures { IfOk result (λ state. option_map state_view state ≡ class_in plan.now path.now) }
    {
        let Some(schedule) = plan.schedule_of(path) else {
            return Ok(None);
        };
        Ok(Some(ClassState {
            is_open: plan.is_open(path),
            schedule: schedule_text(alloc, schedule)?,
        }))
    }

    /// The word for what becomes of the class, by what it was before.
    fn word(&self, before: Option<&ClassState>) -> Option<&'static str>
        ensures { option_map (λ w. w.now) result
            ≡ class_word (option_map (λ b. state_view b.now) before.entry) (state_view self.now) }
    {
        word_of(before.map(|before| before.is_open), self.is_open)
    }
}

/// A word for what becomes of a class, by whether it was open, if there was one, and whether it is.
fn word_of(was_open: Option<bool>, is_open: bool) -> Option<&'static str>
    ensures { option_map (λ w. w.now) result ≡ word_for was_open is_open }
{
    let Some(was_open) = was_open else {
        return Some(if is_open { "new" } else { "new and closed" });
    };
    if was_open == is_open {
        None
    } else if is_open {
        Some("open again")
    } else {
        Some("closed")
    }
}

/// Whether a class has the schedule that it had before.
fn has_same_schedule(before: Option<&ClassState>, after: &ClassState) -> bool
    ensures { result ≡ is_same_schedule (option_map (λ b. state_view b.now) before.entry)
        (state_view after.now) }
{
    match before {
        Some(before) => before.schedule.as_slice() == after.schedule.as_slice(),
        None => false,
    }
}

/// Adds a word for what becomes of a class, if there is one.
fn put_word(text: &mut Shown, word: Option<&'static str>) -> Result<(), AllocError>
    ensures { OnOk result (text.new ≡ text.old ++ word_words (option_map (λ w. w.now) word.entry)) }
{
    match word {
        Some(word) => put!(text; " " words(word)),
        None => Ok(()),
    }
}

/// What stands between that word, if there is one, and what follows it.
fn between(word: Option<&'static str>) -> &'static str
    ensures { result.now ≡ between_of (option_map (λ w. w.now) word.entry) }
{
    match word {
        Some(_) => ", ",
        None => " ",
    }
}

/// Adds the schedule that a class had before, if there was one.
fn put_before(text: &mut Shown, before: Option<&ClassState>) -> Result<(), AllocError>
    ensures { OnOk result (text.new ≡ text.old
        ++ before_words (option_map (λ b. state_view b.now) before.entry)) }
{
    match before {
        Some(before) => put!(text; ", before " escaped(before.schedule.as_slice())),
        None => Ok(()),
    }
}

/// Adds the schedule of a class and the one before, where they are not the same.
fn put_schedule(
    text: &mut Shown,
    before: Option<&ClassState>,
    after: &ClassState,
) -> Result<(), AllocError>
    ensures { OnOk result (text.new ≡ text.old ++ schedule_words
        (option_map (λ b. state_view b.now) before.entry) (state_view after.now)) }
{
    if has_same_schedule(before, after) {
        return Ok(());
    }
    put!(text; words(between(after.word(before))) escaped(after.schedule.as_slice()))?;
    put_before(text, before)
}

/// Adds the line of a class.
#[tactic(auto, unfolding(crate::specs::ClassChanges::class_line))]
fn put_line(
    text: &mut Shown,
    path: &[u8],
    before: Option<&ClassState>,
    after: &ClassState,
) -> Result<(), AllocError>
    ensures { OnOk result (text.new ≡ text.old ++ class_line path.now
        (option_map (λ b. state_view b.now) before.entry) (state_view after.now)) }
{
    put!(text; "class " named(path) ":")?;
    put_word(text, after.word(before))?;
    put_schedule(text, before, after)?;
    text.end_line()
}

/// Adds a line for a class that is new, that is closed or opened, or whose schedule is another one.
fn put_class(
    text: &mut Shown,
    path: &[u8],
    before: Option<&ClassState>,
    after: Option<&ClassState>,
) -> Result<(), AllocError>
    ensures { OnOk result (text.new ≡ text.old ++ line_if_changed path.now
        (option_map (λ b. state_view b.now) before.entry)
        (option_map (λ a. state_view a.now) after.entry)) }
{
    let Some(after) = after else {
        return Ok(());
    };
    if has_same_schedule(before, after) && after.word(before).is_none() {
        return Ok(());
    }
    put_line(text, path, before, after)
}

/// Adds what a new plan changes in the class of a path.
fn put_change(
    alloc: Global,
    text: &mut Shown,
    path: &[u8],
    present: &Plan,
    new: &Plan,
) -> Result<(), AllocError>
    ensures { OnOk result (text.new ≡ text.old
        ++ line_if_changed path.now (class_in present.now path.now) (class_in new.now path.now)) }
{
    let before = ClassState::of(alloc, present, path)?;
    let after = ClassState::of(alloc, new, path)?;
    put_class(text, path, before.as_ref(), after.as_ref())
}

/// The classes that a new plan adds, closes, opens, or gives another schedule, a line each, in byte order of their paths.
pub fn class_lines(alloc: Global, present: &Plan, new: &Plan) -> Result<Shown, AllocError>
    ensures { IfOk result (λ text. text ≡ class_lines_of present.now new.now) }
{
    let mut text = Shown::new(alloc);
    for (path, _, _) in new.classes(alloc)?.as_slice() {
        put_change(alloc, &mut text, path, present, new)?;
    }
    Ok(text)
}
