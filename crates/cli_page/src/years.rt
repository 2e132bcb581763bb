//! The live records that have a due date, by the years in which they fall due, and the columns of a timeline.

ghost use Rattle.std.specs.Prelude.{◌≡◌, ◌+◌, ◌-◌, ◌^◌, ◌≤◌, ◌++◌, OnOk, OnErr, IfOk, length, min};
ghost use Rattle.std.specs.List.{prefix_len, suffix_len};
ghost use Rattle.cli_page.specs.Columns.{in_years, in_column, in_columns, with_one, AddsOne, first_year, no_years, is_empty_year, breadth_of, span_of, no_column, with_year as column_with_year, if_any, columns_from, columns_of as columns_of_years};

use crate::dates::DueDay;
use crate::fault::ReportFault;
use std::alloc::Global;

/// The first year of a due date.
const FIRST: u16 = 1970;

/// The years of due dates: 1970 to 9999.
const YEARS: usize = 8030;

/// How many records fall due in a year.
#[derive(Clone, Copy)]
pub struct Year {
    /// By the day of the report.
    pub due: u64,
    /// After it.
    pub later: u64,
}

impl Year {
    /// A year with one record more, due by the day or later.
    fn with_one(self, is_due: bool) -> Result<Year, ReportFault>
        ensures { IfOk result (λ y. y ≡ with_one is_due self) }
    {
        let Year { due, later } = self;
        if is_due {
            let due = due.checked_add(1).ok_or(ReportFault::TooMany)?;
            Ok(Year { due, later })
        } else {
            let later = later.checked_add(1).ok_or(ReportFault::TooMany)?;
            Ok(Year { due, later })
        }
    }

    fn is_empty(&self) -> bool
        ensures { result ≡ is_empty_year self.now }
    {
        self.due == 0 && self.later == 0
    }
}

/// A column of a timeline: the records that fall due in a number of years.
#[derive(Clone, Copy)]
pub struct Column {
    /// Its first year.
    pub from: u16,
    /// How many years it has.
    pub years: u16,
    /// How many fall due by the day of the report.
    pub due: u64,
    /// How many fall due after it.
    pub later: u64,
}

impl Column {
    /// No records, and none of the years yet.
    fn new(from: u16) -> Column
        ensures { result ≡ no_column from }
    {
        Column {
            from,
            years: 0,
            due: 0,
            later: 0,
        }
    }

    /// A column with one year more.
    fn with_year(self, year: Year) -> Result<Column, ReportFault>
        ensures { IfOk result (λ c. c ≡ column_with_year self year) }
    {
        Ok(Column {
            from: self.from,
            years: self.years.checked_add(1).ok_or(ReportFault::TooMany)?,
            due: self.due.checked_add(year.due).ok_or(ReportFault::TooMany)?,
            later: self
                .later
                .checked_add(year.later)
                .ok_or(ReportFault::TooMany)?,
        })
    }

    /// All its records.
    pub fn total(&self) -> u64
        ensures { result ≡ min (in_column self.now) (2 ^ 64 - 1) }
    {
        self.due.saturating_add(self.later)
    }
}

/// How many live records fall due in each year from 1970 to 9999.
#[derive(Drop)]
pub struct Years {
    pub(crate) years: Vec<Year>,
}

impl Years {
    /// No records in any year.
    pub fn new(alloc: Global) -> Result<Years, ReportFault>
        ensures sum { IfOk result (λ y. in_years y.years.items ≡ 0) }
        ensures none { IfOk result (λ y. y.years.items ≡ no_years) }
    {
        let years = Vec::from_elem(alloc, Year { due: 0, later: 0 }, YEARS)?;
        Ok(Years { years })
    }

    /// Adds a record that falls due on a day. Those up to the report's day count as due.
    ///
    /// A year outside of 1970 to 9999 is refused, and so is a count above 2^64 - 1. A refusal changes nothing.
    pub fn add(&mut self, day: u32, due: DueDay) -> Result<(), ReportFault>
        ensures ok { OnOk result (AddsOne day due self.old.years.items self.new.years.items) }
        ensures err { OnErr result (self.new.years.items ≡ self.old.years.items) }
    {
        if due.year < FIRST {
            return Err(ReportFault::NoDay);
        }
        let place = usize::from(due.year - FIRST);
        if place >= self.years.len() {
            return Err(ReportFault::NoDay);
        }
        let year = self.years[place];
        self.years[place] = year.with_one(due.day <= day)?;
        Ok(())
    }

    /// The columns of a timeline, each with so many years, without those that have no record.
    fn columns_of(&self, alloc: Global, span: u16) -> Result<Vec<Column>, ReportFault>
        ensures columns { IfOk result (λ columns. columns.items
            ≡ columns_from span (no_column first_year) self.now.years.items) }
        ensures sum { IfOk result
            (λ columns. in_columns columns.items ≡ in_years self.now.years.items) }
    {
        let mut columns = Vec::new(alloc);
        let mut column = Column::new(FIRST);
        for year in self.years.as_slice() {
            column = column.with_year(*year)?;
            if column.years >= span {
                let next = column.from.checked_add(span).ok_or(ReportFault::TooMany)?;
                push_column(&mut columns, column)?;
                column = Column::new(next);
            }
        }
        push_column(&mut columns, column)?;
        Ok(columns)
    }

    /// How many years lie from the first to the last that have a record, these among them.
    fn breadth(&self) -> usize
        ensures { result ≡ breadth_of self.now.years.items }
    {
        let years = self.years.as_slice();
        let before = empty_before(years);
        let after = empty_after(years);
        years.len().saturating_sub(before).saturating_sub(after)
    }

    /// How many years a column of the timeline has: one, or the least of 2, 5, 10, 20, 50 and 100 that makes the breadth
    /// less than forty columns, or 250.
    fn span(&self) -> u16
        ensures { result ≡ span_of (breadth_of self.now.years.items) }
    {
        match self.breadth() {
            0..=39 => 1,
            40..=79 => 2,
            80..=199 => 5,
            200..=399 => 10,
            400..=799 => 20,
            800..=1999 => 50,
            2000..=3999 => 100,
            _ => 250,
        }
    }

    /// The columns of a timeline, in their order, without those that have no record. They have all records. Each has 1,
    /// 2, 5, 10, 20, 50, 100 or 250 years, counted from 1970 on; that of 9999 may have fewer.
    ///
    /// A column with more than 2^64 - 1 records is refused. The only other refusal is no memory (99).
    pub fn columns(&self, alloc: Global) -> Result<Vec<Column>, ReportFault>
        ensures columns { IfOk result
            (λ columns. columns.items ≡ columns_of_years self.now.years.items) }
        ensures sum { IfOk result
            (λ columns. in_columns columns.items ≡ in_years self.now.years.items) }
    {
        self.columns_of(alloc, self.span())
    }
}

/// How many years have no record before the first one that has any; all of them if there is none.
fn empty_before(years: &[Year]) -> usize
    ensures value { result ≡ prefix_len is_empty_year years.now }
    ensures within { result ≤ length years.now }
{
    let mut end = 0;
    while end < years.len() && years[end].is_empty() {
        end += 1;
    }
    end
}

/// How many years have no record after the last one that has any; all of them if there is none.
fn empty_after(years: &[Year]) -> usize
    ensures value { result ≡ suffix_len is_empty_year years.now }
    ensures within { result ≤ length years.now }
{
    let mut start = years.len();
    while start > 0 && years[start - 1].is_empty() {
        start -= 1;
    }
    years.len() - start
}

/// Adds a column, unless it has no record.
fn push_column(columns: &mut Vec<Column>, column: Column) -> Result<(), ReportFault>
    ensures column { OnOk result
        (columns.new.items ≡ columns.old.items ++ if_any column) }
    ensures sum { OnOk result
        (in_columns columns.new.items ≡ in_columns columns.old.items + in_column column) }
{
    if column.due > 0 || column.later > 0 {
        columns.push(column)?;
    }
    Ok(())
}
