//! How a record is answered.

use class_plan::Date;

/// A record as it is answered: its number, the path of its class, and the date on which it falls due, or `None`.
#[derive(Drop)]
pub struct Line {
    pub number: u32,
    pub path: Vec<u8>,
    pub due: Option<Date>,
}
