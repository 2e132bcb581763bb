//! Classes as a file or a caller lists them, before they are judged.
use crate::schedules::Schedule;

/// What a listed class states of its own schedule.
#[derive(Clone, Copy)]
pub(crate) enum Stated {
    /// It has none.
    Nothing,
    /// Its schedule is not well made, or its count is out of range.
    Faulty,
    /// It has this one.
    Own(Schedule),
}

#[derive(Clone, Copy)]
pub(crate) struct Listed<'a> {
    pub(crate) path: &'a [u8],
    pub(crate) is_open: bool,
    pub(crate) stated: Stated,
}

/// What is listed: the root's schedule, `None` where it is not well made, and the classes.
#[derive(Drop)]
pub(crate) struct Lists<'a> {
    pub(crate) root: Option<Schedule>,
    pub(crate) classes: Vec<Listed<'a>>,
}
