//! Rows of the tables, as they are read and written.

/// A row of the table `record`: a record of a message, live or destroyed.
#[derive(Drop)]
pub struct RecordRow {
    pub number: u32,
    /// The number of its message.
    pub message: u32,
    /// The path of its class.
    pub path: Vec<u8>,
    /// The day of its capture, in days since 1970-01-01.
    pub day: u32,
    pub destroyed: bool,
}

/// A row of the table `hold`: a hold of that name on the record with that number.
#[derive(Drop)]
pub struct HoldRow {
    pub name: Vec<u8>,
    pub record: u32,
}

/// A row of the table `meta`: a setting, as a key and its value.
#[derive(Drop)]
pub struct SettingRow {
    pub key: Vec<u8>,
    pub value: Vec<u8>,
}

/// A row of the table `class`: a class of the plan.
#[derive(Drop)]
pub struct ClassRow {
    pub path: Vec<u8>,
    pub is_open: bool,
    /// The text of its own schedule, in version 1 alone.
    pub schedule: Option<Vec<u8>>,
}

/// A row of the table `schedule`: the schedule of a class, or of the whole plan.
#[derive(Drop)]
pub struct ScheduleRow {
    /// The path of the class; empty for the schedule of the whole plan.
    pub path: Vec<u8>,
    /// The number of units; 0 for permanent.
    pub count: u32,
    /// 0 permanent, 1 days, 2 months, 3 years.
    pub unit: u32,
    /// 0 permanent, 1 review, 2 transfer, 3 destroy.
    pub action: u32,
    /// 1 where the due date moves to the end of its year, otherwise 0.
    pub year_end: u32,
}

/// A row of the table `due_day`: the day on which a record falls due.
#[derive(Clone, Copy)]
pub struct DueRow {
    pub record: u32,
    /// The day, in days since 1970-01-01.
    pub day: u32,
}

/// A record with its due day, as a query joins them.
#[derive(Drop)]
pub struct DueRecordRow {
    pub record: u32,
    /// The day, in days since 1970-01-01.
    pub day: u32,
    /// The path of its class.
    pub path: Vec<u8>,
}
