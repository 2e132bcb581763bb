//! Plays a table of calls: what no session and no tool shows, but a call of a library does (`row`). Standard input has the
//! table; each row that is answered otherwise is printed.
#![tactic(auto)]

mod call;
mod flights;
mod matching;
mod messages;
mod row;
mod tokens;
mod told;
mod trees;

use anyhow::Result;
use call::Call;
use row::{Row, add_more, read_row};
use std::alloc::Global;
use std::io::Read;
use std::str;

/// The answer of a row's call.
fn answer(alloc: Global, row: &Row) -> Result<Vec<u8>> {
    let (first, second, third) = (row.first(), row.second(), row.third());
    match row.call() {
        Call::Tokens => tokens::tokens(alloc, first),
        Call::Tree => trees::tree(alloc, first),
        Call::Counted => matching::counted(alloc, first, second, third),
        Call::ShortPatterns => matching::short_patterns(alloc),
        Call::Fields => messages::fields(alloc, first),
        Call::Reader => messages::reader(alloc, first),
        Call::Pieces => messages::pieces(alloc, first),
        Call::Case => messages::case(alloc, first, second, third),
        Call::InFlight => flights::in_flight(alloc, first, second),
    }
}

/// Whether a row's call is answered as the row says; if not, this is reported.
fn check_row(rt: &(impl Print + AllocGlobal), front: &[u8], line: &str) -> Result<bool> {
    let row = read_row(rt.alloc(), front, line)?;
    let mut found = answer(rt.alloc(), &row)?;
    if found.is_empty() {
        found.extend_from_slice(b"nothing")?;
    }
    if found.as_slice() == row.wanted() {
        return Ok(true);
    }
    let found = str::from_utf8(found.as_slice()).unwrap_or("(not UTF-8)");
    println!(rt; "{line}\nanswered: {found}")?;
    Ok(false)
}

/// Makes the calls of a table, and reports how many are answered as it says.
fn play(rt: &(impl Print + AllocGlobal), table: &str) -> Result<()> {
    let mut front = Vec::new(rt.alloc());
    let mut right = 0u64;
    for line in table.lines() {
        if line.is_empty() || line.starts_with('#') {
            continue;
        }
        if let Some(more) = line.strip_prefix("more ") {
            add_more(rt.alloc(), &mut front, more)?;
            continue;
        }
        if check_row(rt, front.as_slice(), line)? {
            right = right.saturating_add(1);
        }
        front.clear();
    }
    println!(rt; "{right} calls are answered as the table says")?;
    Ok(())
}

fn main(rt: HostRuntime) -> Result<()> {
    let mut table = String::new(rt.alloc());
    rt.reader().read_to_string(&mut table)?;
    play(&rt, table.as_str())
}
