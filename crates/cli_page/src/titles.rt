//! Titles of classes, and texts below what a cell has.

ghost use Rattle.std.specs.Prelude.{◌≡◌, ◌++◌, option_map, OnOk};
ghost use Rattle.cli_page.specs.Titles.{below, class_text, path_and_title, title_in};

use crate::page::{Page, put};
use cli_texts::ListedTitle;
use std::alloc::AllocError;

/// The title of the class of a path, if it has one.
pub(crate) fn title_of<'t, 'a>(
    titles: &'t [ListedTitle<'a>],
    path: &[u8],
) -> Option<&'t ListedTitle<'a>>
    ensures { option_map (λ t. t.now) result ≡ title_in titles.now path.now }
{
    for it in titles {
        if it.path == path {
            return Some(it);
        }
    }
    None
}

/// Adds a text below what a cell has, if there is one.
pub(crate) fn push_below(page: &mut Page, text: &[u8]) -> Result<(), AllocError>
    ensures { OnOk result (page.new ≡ page.old ++ below text.now) }
{
    if text.is_empty() {
        return Ok(());
    }
    put!(page; "<br>" name(text))
}

/// Adds the path of a class, and its title below it.
pub(crate) fn push_path(
    page: &mut Page,
    path: &[u8],
    title: Option<&ListedTitle<'_>>,
) -> Result<(), AllocError>
    ensures { OnOk result (page.new ≡ page.old
        ++ path_and_title path.now (option_map (λ t. t.now) title.entry)) }
{
    page.name(path)?;
    match title {
        Some(it) => push_below(page, it.title),
        None => Ok(()),
    }
}

/// Adds a class as a page shows it: its path, and below it its title among some, if it has one.
#[tactic(auto, unfolding(crate::specs::Titles::class_text))]
pub(crate) fn push_class(
    page: &mut Page,
    path: &[u8],
    titles: &[ListedTitle<'_>],
) -> Result<(), AllocError>
    ensures { OnOk result (page.new ≡ page.old ++ class_text titles.now path.now) }
{
    push_path(page, path, title_of(titles, path))
}
