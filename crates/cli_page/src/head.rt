//! What each page begins with.

ghost use Rattle.std.specs.Prelude.{◌≡◌, ◌++◌, OnOk};
ghost use Rattle.cli_page.specs.Heads.{head_start, head_end};

use crate::page::{Page, put};
use crate::style::{STYLE, policy};
use std::alloc::{AllocError, Global};

/// Adds what comes before the title of a page.
pub fn open_head(alloc: Global, page: &mut Page) -> Result<(), AllocError>
    ensures { OnOk result (page.new ≡ page.old ++ head_start) }
{
    let policy = policy(alloc)?;
    put!(page;
        "<!DOCTYPE html>\n<html lang=\"en\">\n<head>\n<meta charset=\"utf-8\">\n\
        <meta http-equiv=\"Content-Security-Policy\" content=\"" text(policy.as_str())
        "\">\n<meta name=\"viewport\" content=\"width=device-width, initial-scale=1\">\n\
        <meta name=\"referrer\" content=\"no-referrer\">\n<title>"
    )
}

/// Adds what comes after the title, and before the body.
pub fn close_head(page: &mut Page) -> Result<(), AllocError>
    ensures { OnOk result (page.new ≡ page.old ++ head_end) }
{
    put!(page; "</title>\n<style>" markup(STYLE) "</style>\n</head>\n")
}
