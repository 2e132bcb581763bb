//! The head of a page, and its classes with their counts.

ghost use Rattle.std.specs.Prelude.{◌≡◌, ◌++◌, flat_map, option_map, OnOk};
ghost use Rattle.std.specs.Prelude.{int_le};
ghost use Rattle.jiff.specs.Words.{epoch_day};
ghost use Rattle.class_plan.specs.Plans.{is_open_in, schedule_at};
ghost use Rattle.class_plan.specs.Schedules.{IsInRange};
ghost use Rattle.class_plan.specs.Texts.{text_of};
ghost use Rattle.cli_page.specs.Pages.{name_piece};
ghost use Rattle.cli_page.specs.Reports.{
  basis_below,
  class_cell,
  class_foot,
  class_head,
  class_row,
  classes_text,
  condition_fact,
  condition_facts,
  count_cells,
  due_facts,
  forecast,
  forecast_note,
  heading_text,
  hold_facts,
  open_word as open_word_of,
  plan_cells,
  record_facts,
  report_head,
  report_title,
  schedule_words,
  subject_facts,
  totals_text,
};

use crate::counts::Counts;
use crate::head::{close_head, open_head};
use crate::page::{Page, put};
use crate::report::Heading;
use crate::tally::{ClassCounts, Tally};
use crate::titles::{push_below, push_path, title_of};
use class_plan::{Date, Plan, Schedule, day_number, schedule_text};
use cli_texts::ListedTitle;
use std::alloc::{AllocError, Global};

/// Adds the title of a report.
#[tactic(auto, unfolding(crate::specs::Reports::report_title))]
fn push_title(page: &mut Page, heading: &Heading<'_>) -> Result<(), AllocError>
    ensures { OnOk result (page.new ≡ page.old ++ report_title heading.now) }
{
    put!(page; "Disposal report by " date(heading.day) ": " text(heading.file))
}

/// Adds what comes before the body of a page.
fn push_head(alloc: Global, page: &mut Page, heading: &Heading<'_>) -> Result<(), AllocError>
    ensures { OnOk result (page.new ≡ page.old ++ report_head heading.now) }
{
    open_head(alloc, page)?;
    push_title(page, heading)?;
    close_head(page)
}

/// Adds the store and the moment of a report.
#[tactic(auto, unfolding(crate::specs::Reports::subject_facts))]
fn push_subject(page: &mut Page, heading: &Heading<'_>) -> Result<(), AllocError>
    ensures { OnOk result (page.new ≡ page.old ++ subject_facts heading.now) }
{
    put!(page;
        "<body>\n<header>\n<h1>Disposal report by " date(heading.day)
        "</h1>\n<dl class=\"facts\">\n<dt>Store</dt><dd>" text(heading.file)
        "</dd>\n<dt>Made</dt><dd>" text(heading.moment) "</dd>\n"
    )
}

/// Adds the conditions that the records of a report meet.
#[tactic(auto, unfolding(crate::specs::Reports::condition_fact))]
fn push_condition(page: &mut Page, conditions: &str) -> Result<(), AllocError>
    ensures { OnOk result (page.new ≡ page.old ++ condition_fact conditions.now) }
{
    put!(page; "<dt>Only records with</dt><dd>" text(conditions) "</dd>\n")
}

/// Adds the conditions that the records of a report meet, if there are any.
fn push_conditions(page: &mut Page, conditions: Option<&str>) -> Result<(), AllocError>
    ensures { OnOk result (page.new ≡ page.old
        ++ condition_facts (option_map (λ c. c.now) conditions.entry)) }
{
    match conditions {
        Some(conditions) => push_condition(page, conditions),
        None => Ok(()),
    }
}

/// Adds the head of a page, and what the report is about.
pub fn heading(alloc: Global, page: &mut Page, heading: &Heading<'_>) -> Result<(), AllocError>
    ensures { OnOk result (page.new ≡ page.old ++ heading_text heading.now) }
{
    push_head(alloc, page, heading)?;
    push_subject(page, heading)?;
    push_conditions(page, heading.conditions)
}

/// Adds how many records there are.
#[tactic(auto, unfolding(crate::specs::Reports::record_facts))]
fn push_records(page: &mut Page, all: &Counts) -> Result<(), AllocError>
    ensures { OnOk result (page.new ≡ page.old ++ record_facts all.now) }
{
    put!(page;
        "<dt>Records</dt><dd>" number(all.records) ": " number(all.live) " live, "
        number(all.destroyed) " destroyed</dd>\n"
    )
}

/// Adds how many live records a hold keeps.
#[tactic(auto, unfolding(crate::specs::Reports::hold_facts))]
fn push_held(page: &mut Page, all: &Counts) -> Result<(), AllocError>
    ensures { OnOk result (page.new ≡ page.old ++ hold_facts all.now) }
{
    put!(page; "<dt>On hold</dt><dd>" number(all.held) "</dd>\n")
}

/// Adds how many records are due by a day, and how many of these may be destroyed.
#[tactic(auto, unfolding(crate::specs::Reports::due_facts))]
fn push_due(page: &mut Page, day: Date, due: u64, free: u64) -> Result<(), AllocError>
    ensures { OnOk result (page.new ≡ page.old ++ due_facts day due free) }
{
    put!(page;
        "<dt>Due by " time(day) "</dt><dd>" number(due) ", of which " number(free)
        " may be destroyed</dd>\n</dl>\n</header>\n"
    )
}

/// Adds that a day has not come yet.
#[tactic(auto, unfolding(crate::specs::Reports::forecast_note))]
fn push_note(page: &mut Page, day: Date) -> Result<(), AllocError>
    ensures { OnOk result (page.new ≡ page.old ++ forecast_note day) }
{
    put!(page;
        "<p class=\"note\"><strong>This is a forecast.</strong> " date(day)
        " has not come yet. Until then records may be captured, held, released and destroyed, and \
        the plan may be replaced. "
        "No record can be destroyed before it is due.</p>\n"
    )
}

/// Adds that the day of a report has not come yet, where that is so.
fn push_forecast(page: &mut Page, day: Date, today: Date) -> Result<(), AllocError>
    ensures { OnOk result (page.new ≡ page.old ++ forecast day today) }
{
    if day_number(day) <= day_number(today) {
        return Ok(());
    }
    push_note(page, day)
}

/// Adds how many records there are, and so the end of the head.
pub fn totals(
    page: &mut Page,
    heading: &Heading<'_>,
    all: &Counts,
    free: u64,
) -> Result<(), AllocError>
    ensures { OnOk result (page.new ≡ page.old ++ totals_text heading.now all.now free) }
{
    push_records(page, all)?;
    push_held(page, all)?;
    push_due(page, heading.day, all.due, free)?;
    push_forecast(page, heading.day, heading.today)?;
    page.markup("<main>\n")
}

/// Adds a schedule.
fn push_schedule(alloc: Global, page: &mut Page, schedule: Schedule) -> Result<(), AllocError>
    requires { IsInRange schedule }
    ensures { OnOk result (page.new ≡ page.old ++ name_piece (text_of schedule)) }
{
    let text = schedule_text(alloc, schedule)?;
    page.name(text.as_slice())
}

/// Adds the schedule of a class, if the plan has the class.
fn push_schedule_of(
    alloc: Global,
    page: &mut Page,
    plan: &Plan,
    path: &[u8],
) -> Result<(), AllocError>
    ensures { OnOk result (page.new ≡ page.old ++ schedule_words (schedule_at plan.now path.now)) }
{
    match plan.schedule_of(path) {
        Some(schedule) => push_schedule(alloc, page, schedule),
        None => Ok(()),
    }
}

/// Adds the legal basis of a class, if it has one.
fn push_basis(page: &mut Page, title: Option<&ListedTitle<'_>>) -> Result<(), AllocError>
    ensures { OnOk result (page.new ≡ page.old
        ++ basis_below (option_map (λ t. t.now) title.entry)) }
{
    match title {
        Some(it) => push_below(page, it.basis),
        None => Ok(()),
    }
}

/// Adds the cells of counts.
#[tactic(auto, unfolding(crate::specs::Reports::count_cells))]
fn push_counts(page: &mut Page, counts: &Counts) -> Result<(), AllocError>
    ensures { OnOk result (page.new ≡ page.old ++ count_cells counts.now) }
{
    put!(page;
        number_cell(counts.records) number_cell(counts.live) number_cell(counts.held)
        number_cell(counts.destroyed) number_cell(counts.due)
    )
}

/// Adds the cell of a class with its title, which begins its row.
#[tactic(auto, unfolding(crate::specs::Reports::class_cell))]
fn push_class_cell(
    page: &mut Page,
    path: &[u8],
    title: Option<&ListedTitle<'_>>,
) -> Result<(), AllocError>
    ensures { OnOk result (page.new ≡ page.old
        ++ class_cell path.now (option_map (λ t. t.now) title.entry)) }
{
    page.markup("<tr><th scope=\"row\">")?;
    push_path(page, path, title)?;
    put!(page; "</th>")
}

/// The word for whether a class is open.
fn open_word(is_open: bool) -> &'static str
    ensures { result.now ≡ open_word_of is_open }
{
    if is_open { "yes" } else { "no" }
}

/// Adds the cells of what a plan says of a class.
#[tactic(auto, unfolding(crate::specs::Reports::plan_cells))]
fn push_plan_cells(
    alloc: Global,
    page: &mut Page,
    plan: &Plan,
    path: &[u8],
    title: Option<&ListedTitle<'_>>,
) -> Result<(), AllocError>
    ensures { OnOk result (page.new ≡ page.old
        ++ plan_cells plan.now path.now (option_map (λ t. t.now) title.entry)) }
{
    page.markup("<td>")?;
    push_schedule_of(alloc, page, plan, path)?;
    push_basis(page, title)?;
    put!(page; "</td><td>" markup(open_word(plan.is_open(path))) "</td>")
}

/// Adds the row of a class.
fn push_class(
    alloc: Global,
    page: &mut Page,
    plan: &Plan,
    class: &ClassCounts,
    titles: &[ListedTitle<'_>],
) -> Result<(), AllocError>
    ensures { OnOk result (page.new ≡ page.old
        ++ class_row plan.now titles.now «class».now) }
{
    let path = class.path.as_slice();
    let title = title_of(titles, path);
    push_class_cell(page, path, title)?;
    push_plan_cells(alloc, page, plan, path, title)?;
    push_counts(page, &class.counts)?;
    page.markup("</tr>\n")
}

/// Adds the head of the table of classes.
#[tactic(auto, unfolding(crate::specs::Reports::class_head))]
fn push_class_head(page: &mut Page, day: Date) -> Result<(), AllocError>
    ensures { OnOk result (page.new ≡ page.old ++ class_head day) }
{
    put!(page;
        "<section aria-labelledby=\"classes\">\n<h2 id=\"classes\">Classes</h2>\n<table>\n"
        "<caption>Each class with its schedule, its own or that of the class above it, and its \
        records. "
        "Held and due ones are live.</caption>\n"
        "<thead><tr><th scope=\"col\" class=\"p\">Class</th><th scope=\"col\">Schedule</th>\
        <th scope=\"col\">Open</th>"
        "<th scope=\"col\" class=\"n\">Records</th><th scope=\"col\" class=\"n\">Live</th>\
        <th scope=\"col\" class=\"n\">Held</th>"
        "<th scope=\"col\" class=\"n\">Destroyed</th><th scope=\"col\" class=\"n\">Due by "
        time(day) "</th></tr></thead>\n<tbody>\n"
    )
}

/// Adds the rows of classes.
fn push_rows(
    alloc: Global,
    page: &mut Page,
    plan: &Plan,
    rows: &[ClassCounts],
    titles: &[ListedTitle<'_>],
) -> Result<(), AllocError>
    ensures { OnOk result (page.new ≡ page.old
        ++ flat_map (class_row plan.now titles.now) rows.now) }
{
    for row in rows {
        push_class(alloc, page, plan, row, titles)?;
    }
    Ok(())
}

/// Adds the counts of all classes, and the end of their section.
#[tactic(auto, unfolding(crate::specs::Reports::class_foot))]
fn push_class_foot(page: &mut Page, all: &Counts) -> Result<(), AllocError>
    ensures { OnOk result (page.new ≡ page.old ++ class_foot all.now) }
{
    page.markup("</tbody>\n<tfoot><tr><th scope=\"row\" colspan=\"3\">All classes</th>")?;
    push_counts(page, all)?;
    page.markup("</tr></tfoot>\n</table>\n</section>\n")
}

/// Adds the section of classes: of a report by the day of its heading, with the titles that it has.
pub fn classes(
    alloc: Global,
    page: &mut Page,
    plan: &Plan,
    tally: &Tally,
    about: &Heading<'_>,
) -> Result<(), AllocError>
    ensures { OnOk result (page.new ≡ page.old ++ classes_text plan.now tally.now about.now) }
{
    push_class_head(page, about.day)?;
    push_rows(alloc, page, plan, tally.classes.as_slice(), about.titles)?;
    push_class_foot(page, &tally.all)
}
