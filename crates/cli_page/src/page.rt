//! The text of a page, which grows piece by piece.

ghost use Rattle.std.specs.Prelude.{◌≡◌, ◌++◌, [], OnOk, decimal, string_bytes};
ghost use Rattle.cli_texts.specs.Rows.{number_field};
ghost use Rattle.jiff.specs.Words.{date_text};
ghost use Rattle.cli_page.specs.Names.{file_name as file_name_of, history_name as history_name_of};
ghost use Rattle.cli_page.specs.Pages.{text_piece, name_piece, path_piece, time_piece, number_cell_piece};

use crate::escaping::{push_escaped, push_path};
use crate::names::{file_name, history_name};
use class_plan::Date;
use cli_texts::number_text;
use std::alloc::{AllocError, Global};
use std::marker::Model;

/// Adds pieces to a page, one after the other: markup, and values by the calls of `Page` that are named.
macro_rules! put {
    ($page:expr;) => {
        Ok::<(), AllocError>(())
    };
    ($page:expr; $markup:literal $($rest:tt)*) => {{
        $page.markup($markup)?;
        put!($page; $($rest)*)
    }};
    ($page:expr; $call:ident($value:expr) $($rest:tt)*) => {{
        $page.$call($value)?;
        put!($page; $($rest)*)
    }};
}

pub(crate) use put;

/// The text of a page, which grows piece by piece. Markup is a text of the program itself; whatever an archive or a command
/// line names is added as text, in which nothing is markup.
#[derive(Drop)]
pub struct Page {
    alloc: Global,
    html: String,
}

impl Model for Page {
    ghost use Rattle.std.specs.Prelude.{ℕ, List, string_bytes};

    ghost Value = { List ℕ };

    ghost view = { λ p. string_bytes p.html };
}

impl Page {
    /// An empty page.
    pub fn new(alloc: Global) -> Page
        ensures { result ≡ [] }
    {
        let html = String::new(alloc);
        Page { alloc, html }
    }

    /// Adds markup.
    pub fn markup(&mut self, markup: &'static str) -> Result<(), AllocError>
        ensures { OnOk result (self.new ≡ self.old ++ markup.now) }
    {
        self.html.push_str(markup)
    }

    /// Adds text, as [`escaped`](crate::escaped) shows it.
    #[tactic(auto, unfolding(crate::specs::Pages::text_piece))]
    pub fn text(&mut self, text: &str) -> Result<(), AllocError>
        ensures { OnOk result (self.new ≡ self.old ++ text_piece text.now) }
    {
        push_escaped(&mut self.html, text)
    }

    /// Adds the path of a class, the name of a hold or a schedule, which are ASCII. What is no UTF-8 is U+FFFD.
    #[tactic(auto, unfolding(crate::specs::Pages::name_piece))]
    pub fn name(&mut self, name: &[u8]) -> Result<(), AllocError>
        ensures { OnOk result (self.new ≡ self.old ++ name_piece name.now) }
    {
        let text = String::from_utf8_lossy(self.alloc, name)?;
        self.text(text.as_str())
    }

    /// Adds the path of a class. A line may end after each slash of it. What is no UTF-8 is U+FFFD.
    #[tactic(auto, unfolding(crate::specs::Pages::path_piece))]
    pub(crate) fn path(&mut self, path: &[u8]) -> Result<(), AllocError>
        ensures { OnOk result (self.new ≡ self.old ++ path_piece path.now) }
    {
        let text = String::from_utf8_lossy(self.alloc, path)?;
        push_path(&mut self.html, text.as_str())
    }

    /// Adds a number in decimal.
    pub fn number(&mut self, number: u64) -> Result<(), AllocError>
        ensures { OnOk result (self.new ≡ self.old ++ decimal number) }
    {
        write!(self.html, "{number}")
    }

    /// Adds the number of a record, after that of its volume where it has one: `17`, or `3/17`.
    pub(crate) fn record_number(
        &mut self,
        volume: Option<u32>,
        number: u32,
    ) -> Result<(), AllocError>
        ensures { OnOk result (self.new ≡ self.old ++ number_field volume number) }
    {
        let text = number_text(self.alloc, volume, number)?;
        self.html.push_str(text.as_str())
    }

    /// Adds the name of the file of a message.
    pub(crate) fn file_name(&mut self, volume: Option<u32>, message: u32) -> Result<(), AllocError>
        ensures { OnOk result (self.new ≡ self.old ++ file_name_of volume message) }
    {
        let name = file_name(self.alloc, volume, message)?;
        self.html.push_str(name.as_str())
    }

    /// Adds the name of the file of the events of a store, or of a volume.
    pub(crate) fn history_name(&mut self, volume: Option<u32>) -> Result<(), AllocError>
        ensures { OnOk result (self.new ≡ self.old ++ history_name_of volume) }
    {
        let name = history_name(self.alloc, volume)?;
        self.html.push_str(name.as_str())
    }

    /// Adds a date as `2030-11-14`, which has digits and hyphens alone.
    pub fn date(&mut self, date: Date) -> Result<(), AllocError>
        ensures { OnOk result (self.new ≡ self.old ++ date_text date) }
    {
        let text = format!(in self.alloc; "{date}")?;
        self.html.push_str(text.as_str())
    }

    /// Adds a date as an element, which is not broken into lines.
    #[tactic(auto, unfolding(crate::specs::Pages::time_piece))]
    pub(crate) fn time(&mut self, date: Date) -> Result<(), AllocError>
        ensures { OnOk result (self.new ≡ self.old ++ time_piece date) }
    {
        put!(self; "<time>" date(date) "</time>")
    }

    /// Adds a number in a cell of a table.
    #[tactic(auto, unfolding(crate::specs::Pages::number_cell_piece))]
    pub(crate) fn number_cell(&mut self, number: u64) -> Result<(), AllocError>
        ensures { OnOk result (self.new ≡ self.old ++ number_cell_piece number) }
    {
        put!(self; "<td class=\"n\">" number(number) "</td>")
    }

    /// Adds what another page has.
    pub(crate) fn add(&mut self, other: &Page) -> Result<(), AllocError>
        ensures { OnOk result (self.new ≡ self.old ++ other.now) }
    {
        self.html.push_str(other.html.as_str())
    }

    /// What was added.
    pub fn as_str(&self) -> &str
        ensures { result.now ≡ self.now }
    {
        self.html.as_str()
    }
}
