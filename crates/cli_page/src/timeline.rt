//! When live records fall due: a drawn timeline, and the same in a table.

ghost use Rattle.std.specs.Prelude.{◌≡◌, ◌++◌, List, ℕ, flat_map, OnOk};
ghost use Rattle.cli_page.specs.Timelines.{IsTimeline, column_row, columns_end, columns_head, columns_table, no_dates, row_cells, row_head, timeline_end, timeline_head, years_words};

use crate::fault::ReportFault;
use crate::page::{Page, put};
use crate::tally::Tally;
use crate::years::Column;
use class_plan::Date;
use std::alloc::{AllocError, Global};

/// The left edge of the columns, their right edge, and the top and bottom of the greatest one, in units of the drawing.
const LEFT: u64 = 52;

const RIGHT: u64 = 712;

const TOP: u64 = 28;

const BOTTOM: u64 = 214;

/// The widest place of a column.
const WIDEST: u64 = 66;

/// The narrowest place of a column that has a label of its own.
const LABEL: u64 = 34;

/// The most places of a timeline that also shows the day.
const PLACES: u64 = 60;

/// How columns are drawn.
#[derive(Clone, Copy)]
struct Scale {
    /// The first year of the first place.
    from: u16,
    /// How many years a place has.
    span: u16,
    /// How wide a place is.
    width: u64,
    /// The number of records at the top.
    top: u64,
}

/// The first even multiple of a unit, up to its tenfold, that is not below a count.
fn multiple(unit: u64, count: u64) -> Option<u64> {
    [2u64, 4, 6, 8, 10]
        .iter()
        .map(|times| unit.saturating_mul(*times))
        .find(|top| *top >= count)
}

/// A round even number that is not below a count.
fn top_of(count: u64) -> u64 {
    let mut unit = 1u64;
    for _ in 0..20 {
        if let Some(top) = multiple(unit, count) {
            return top;
        }
        unit = unit.saturating_mul(10);
    }
    u64::MAX
}

/// The first year of the column that would have a year.
fn place_from(columns: &[Column], year: u16, span: u16) -> u16 {
    let Some(first) = columns.first() else {
        return year;
    };
    let behind = first.from.abs_diff(year) % span.max(1);
    if year >= first.from || behind == 0 {
        year.saturating_sub(behind)
    } else {
        year.saturating_add(behind).saturating_sub(span)
    }
}

impl Scale {
    /// The scale of columns, with the year of a day among them where that leaves few enough places.
    fn of(columns: &[Column], year: u16) -> Scale {
        let span = columns
            .iter()
            .map(|column| column.years)
            .max()
            .unwrap_or(1)
            .max(1);
        let first = columns.first().map_or(year, |column| column.from);
        let last = columns.last().map_or(year, |column| column.from);
        let of_day = place_from(columns, year, span);
        let (low, high) = (first.min(of_day), last.max(of_day));
        let places = |from: u16, to: u16| u64::from(to.saturating_sub(from) / span).saturating_add(
            1,
        );
        let (from, count) = if places(low, high) <= PLACES {
            (low, places(low, high))
        } else {
            (first, places(first, last))
        };
        let greatest = columns
            .iter()
            .map(|column| column.total())
            .max()
            .unwrap_or(1);
        Scale {
            from,
            span,
            width: ((RIGHT - LEFT) / count.max(1)).clamp(1, WIDEST),
            top: top_of(greatest),
        }
    }

    /// The left edge of the place of a year.
    fn left_of(&self, year: u16) -> u64 {
        let place = u64::from(year.saturating_sub(self.from) / self.span.max(1));
        LEFT.saturating_add(place.saturating_mul(self.width))
    }

    /// How high a number of records is drawn: at least one unit for one record.
    fn height_of(&self, count: u64) -> u64 {
        if count == 0 {
            return 0;
        }
        (count.saturating_mul(BOTTOM - TOP) / self.top.max(1)).clamp(1, BOTTOM - TOP)
    }
}

/// Adds a rectangle.
fn push_rectangle(
    page: &mut Page,
    class: &'static str,
    left: u64,
    bottom: u64,
    width: u64,
    height: u64,
) -> Result<(), AllocError> {
    if height == 0 {
        return Ok(());
    }
    put!(page;
        "<rect class=\"" markup(class) "\" x=\"" number(left) "\" y=\""
        number(bottom.saturating_sub(height)) "\" width=\"" number(width) "\" height=\""
        number(height) "\"/>"
    )
}

/// Adds the beginning of a text, up to its words.
fn open_text(page: &mut Page, anchor: &'static str, x: u64, y: u64) -> Result<(), AllocError> {
    put!(page;
        "<text text-anchor=\"" markup(anchor) "\" x=\"" number(x) "\" y=\"" number(y) "\">"
    )
}

/// Adds a number as a text.
fn push_label(
    page: &mut Page,
    anchor: &'static str,
    x: u64,
    y: u64,
    number: u64,
) -> Result<(), AllocError> {
    open_text(page, anchor, x, y)?;
    put!(page; number(number) "</text>")
}

/// Adds a line.
fn push_line(
    page: &mut Page,
    class: &'static str,
    from: (u64, u64),
    to: (u64, u64),
) -> Result<(), AllocError> {
    put!(page;
        "<line class=\"" markup(class) "\" x1=\"" number(from.0) "\" y1=\"" number(from.1)
        "\" x2=\"" number(to.0) "\" y2=\"" number(to.1) "\"/>"
    )
}

/// Adds a level of the scale, with its number.
fn push_level(page: &mut Page, class: &'static str, y: u64, count: u64) -> Result<(), AllocError> {
    push_line(page, class, (LEFT, y), (RIGHT, y))?;
    push_label(page, "end", LEFT - 6, y.saturating_add(4), count)?;
    page.markup("\n")
}

/// How wide a number is written, about.
fn width_of(number: u64) -> u64 {
    let mut width = 10u64;
    let mut rest = number;
    for _ in 0..20 {
        rest /= 10;
        if rest == 0 {
            break;
        }
        width = width.saturating_add(7);
    }
    width
}

/// Adds a column: what is due by the day below, and what is due later on it.
fn push_column(page: &mut Page, scale: &Scale, column: &Column) -> Result<(), AllocError> {
    let left = scale.left_of(column.from);
    let width = (scale.width.saturating_mul(3) / 4).max(1);
    let edge = left.saturating_add((scale.width.saturating_sub(width)) / 2);
    let due = scale.height_of(column.due);
    let later = scale
        .height_of(column.later)
        .min((BOTTOM - TOP).saturating_sub(due));
    let top = BOTTOM.saturating_sub(due);
    push_rectangle(page, "c-due", edge, BOTTOM, width, due)?;
    push_rectangle(page, "c-later", edge, top, width, later)?;
    let middle = left.saturating_add(scale.width / 2);
    if width_of(column.total()) <= scale.width {
        push_label(
            page,
            "middle",
            middle,
            top.saturating_sub(later.saturating_add(4)),
            column.total(),
        )?;
    }
    page.markup("\n")
}

/// Adds the years below the columns, each where there is room for it.
fn push_years(page: &mut Page, scale: &Scale) -> Result<(), AllocError> {
    let each = LABEL.div_ceil(scale.width.max(1));
    for place in 0..PLACES {
        let left = LEFT.saturating_add(place.saturating_mul(scale.width));
        let year = u64::from(scale.from).saturating_add(place.saturating_mul(u64::from(
            scale.span,
        )));
        if left.saturating_add(scale.width) > RIGHT || year > 9999 {
            break;
        }
        if place % each.max(1) == 0 {
            push_label(
                page,
                "middle",
                left.saturating_add(scale.width / 2),
                BOTTOM + 16,
                year,
            )?;
        }
    }
    page.markup("\n")
}

/// Where a day lies below the columns.
fn place_of_day(scale: &Scale, day: Date) -> Option<u64> {
    let year = u16::try_from(day.year()).ok()?;
    if year < scale.from {
        return None;
    }
    let months = u64::try_from(day.month()).ok()?.saturating_sub(1);
    let behind = u64::from((year - scale.from) % scale.span.max(1));
    let past = behind.saturating_mul(12).saturating_add(months);
    let share = past.saturating_mul(scale.width)
        / u64::from(scale.span.max(1)).saturating_mul(12).max(1);
    let place = scale.left_of(year).saturating_add(share);
    if place < RIGHT { Some(place) } else { None }
}

/// Adds a line for the day.
fn push_day(page: &mut Page, scale: &Scale, day: Date) -> Result<(), AllocError> {
    let Some(x) = place_of_day(scale, day) else {
        return Ok(());
    };
    push_line(page, "day", (x, TOP - 12), (x, BOTTOM))?;
    open_text(
        page,
        if x < RIGHT - 70 { "start" } else { "end" },
        x,
        TOP - 16,
    )?;
    put!(page; date(day) "</text>\n")
}

/// Adds the meaning of the colours.
fn push_legend(page: &mut Page, day: Date) -> Result<(), AllocError> {
    push_rectangle(page, "c-due", LEFT, 256, 12, 12)?;
    open_text(page, "start", LEFT + 18, 254)?;
    put!(page; "due by " date(day) "</text>")?;
    push_rectangle(page, "c-later", LEFT + 160, 256, 12, 12)?;
    open_text(page, "start", LEFT + 178, 254)?;
    page.markup("due later</text>\n")
}

/// Adds what is said of the drawing to those who do not see it.
fn push_title(page: &mut Page) -> Result<(), AllocError> {
    page.markup(
        "<figure>\n<svg viewBox=\"0 0 720 264\" xmlns=\"http://www.w3.org/2000/svg\" role=\"img\" \
        aria-label=\"Columns of live records by the years in which they fall due. \
        The table below has the same numbers.\">\n",
    )
}

/// The drawing.
fn drawing_of(
    alloc: Global,
    columns: &[Column],
    scale: &Scale,
    day: Date,
) -> Result<Page, AllocError> {
    let mut page = Page::new(alloc);
    push_title(&mut page)?;
    push_level(&mut page, "grid", TOP, scale.top)?;
    push_level(&mut page, "grid", TOP.midpoint(BOTTOM), scale.top / 2)?;
    for column in columns {
        push_column(&mut page, scale, column)?;
    }
    push_level(&mut page, "axis", BOTTOM, 0)?;
    push_years(&mut page, scale)?;
    push_day(&mut page, scale, day)?;
    push_legend(&mut page, day)?;
    page.markup("</svg>\n</figure>\n")?;
    Ok(page)
}

/// Adds the years of a column: one, or the first and the last of them.
fn push_span(page: &mut Page, column: &Column) -> Result<(), AllocError>
    ensures { OnOk result (page.new ≡ page.old ++ years_words column.now) }
{
    let Column { from, years, .. } = *column;
    page.number(u64::from(from))?;
    if years <= 1 {
        return Ok(());
    }
    put!(page; " to " number(u64::from(from) + u64::from(years - 1)))
}

/// Adds the first cell of the row of a column.
#[tactic(auto, unfolding(crate::specs::Timelines::row_head))]
fn push_row_head(page: &mut Page, column: &Column) -> Result<(), AllocError>
    ensures { OnOk result (page.new ≡ page.old ++ row_head column.now) }
{
    page.markup("<tr><th scope=\"row\">")?;
    push_span(page, column)?;
    page.markup("</th>")
}

/// Adds the other cells, and the end of the row.
#[tactic(auto, unfolding(crate::specs::Timelines::row_cells))]
fn push_row_cells(page: &mut Page, column: &Column) -> Result<(), AllocError>
    ensures { OnOk result (page.new ≡ page.old ++ row_cells column.now) }
{
    put!(page;
        number_cell(column.due) number_cell(column.later) number_cell(column.total()) "</tr>\n"
    )
}

/// Adds the rows of columns.
fn push_rows(page: &mut Page, columns: &[Column]) -> Result<(), AllocError>
    ensures { OnOk result (page.new ≡ page.old ++ flat_map column_row columns.now) }
{
    for column in columns {
        push_row_head(page, column)?;
        push_row_cells(page, column)?;
    }
    Ok(())
}

/// Adds what comes before the rows.
#[tactic(auto, unfolding(crate::specs::Timelines::columns_head))]
fn open_table(page: &mut Page, day: Date) -> Result<(), AllocError>
    ensures { OnOk result (page.new ≡ page.old ++ columns_head day) }
{
    put!(page;
        "<table>\n<caption>Live records by the years in which they fall due; years without any are \
        left out</caption>\n<thead><tr>\
        <th scope=\"col\">Due in</th><th scope=\"col\" class=\"n\">By " time(day)
        "</th><th scope=\"col\" class=\"n\">Later</th><th scope=\"col\" class=\"n\">All</th>\
        </tr></thead>\n<tbody>\n"
    )
}

/// Adds the number of all live records with a due date, and the end of the table.
#[tactic(auto, unfolding(crate::specs::Timelines::columns_end))]
fn close_table(page: &mut Page, dated: u64) -> Result<(), AllocError>
    ensures { OnOk result (page.new ≡ page.old ++ columns_end dated) }
{
    put!(page;
        "</tbody>\n<tfoot><tr><th scope=\"row\" colspan=\"3\">Live records with a due date</th>"
        number_cell(dated) "</tr></tfoot>\n</table>\n"
    )
}

/// Adds the table of columns.
fn push_table(page: &mut Page, columns: &[Column], dated: u64, day: Date) -> Result<(), AllocError>
    ensures { OnOk result (page.new ≡ page.old ++ columns_table columns.now dated day) }
{
    open_table(page, day)?;
    push_rows(page, columns)?;
    close_table(page, dated)
}

/// Adds the heading of the section.
#[tactic(auto, unfolding(crate::specs::Timelines::timeline_head))]
fn open_section(page: &mut Page) -> Result<(), AllocError>
    ensures { OnOk result (page.new ≡ page.old ++ timeline_head) }
{
    page.markup("<section aria-labelledby=\"when\">\n<h2 id=\"when\">When records fall due</h2>\n")
}

/// Adds that no record falls due, and the end of the section.
#[tactic(auto, unfolding(crate::specs::Timelines::no_dates))]
fn push_no_dates(page: &mut Page) -> Result<(), AllocError>
    ensures { OnOk result (page.new ≡ page.old ++ no_dates) }
{
    page.markup("<p>No live record has a due date.</p>\n</section>\n")
}

/// Adds the end of the section.
#[tactic(auto, unfolding(crate::specs::Timelines::timeline_end))]
fn close_section(page: &mut Page) -> Result<(), AllocError>
    ensures { OnOk result (page.new ≡ page.old ++ timeline_end) }
{
    page.markup("</section>\n")
}

/// Adds the section of due dates.
pub fn timeline(alloc: Global, page: &mut Page, tally: &Tally, day: Date) -> Result<(), ReportFault>
    ensures { OnOk result ((text : List ℕ) × IsTimeline tally.now day text
        × (page.new ≡ page.old ++ text)) }
{
    open_section(page)?;
    let columns = tally.years.columns(alloc)?;
    let columns = columns.as_slice();
    if columns.is_empty() {
        push_no_dates(page)?;
        return Ok(());
    }
    let scale = Scale::of(columns, u16::try_from(day.year()).unwrap_or(0));
    page.add(&drawing_of(alloc, columns, &scale, day)?)?;
    push_table(page, columns, tally.all.dated, day)?;
    close_section(page)?;
    Ok(())
}
