//! Warnings of includes that come back to a script that is still running, and of those that lead too deep.

use crate::told::Told;
use rule_folders::Reached;
use std::alloc::{AllocError, Global};
use tool_console::{Failure, push_place, write_line};
use tool_findings::{Circle, Edge, Includes, includes_of};
use tool_texts::{Shown, put};

/// Adds the path of a script, as it is shown.
fn push_path(text: &mut Shown, reached: &Reached, script: usize) -> Result<(), AllocError> {
    text.named(reached.path(script).as_bytes())
}

/// Adds the paths of scripts, each of which includes the next one.
fn push_including(
    text: &mut Shown,
    reached: &Reached,
    scripts: &[usize],
) -> Result<(), AllocError> {
    for script in scripts {
        push_path(text, reached, *script)?;
        text.words(" includes ")?;
    }
    Ok(())
}

/// Adds the scripts of a circle in words, each of which includes the next one, beginning at a place among them.
fn push_chain(
    text: &mut Shown,
    reached: &Reached,
    scripts: &[usize],
    from: usize,
) -> Result<(), AllocError> {
    let (before, after) = scripts.split_at(from.min(scripts.len()));
    push_including(text, reached, after)?;
    push_including(text, reached, before)?;
    push_path(text, reached, scripts.get(from).copied().unwrap_or(0))
}

/// The place of the script of a circle whose path is the first of all in byte order.
fn first_of(reached: &Reached, scripts: &[usize]) -> usize {
    let mut first: usize = 0;
    for (place, script) in scripts.iter().enumerate() {
        let least = scripts.get(first).copied().unwrap_or(0);
        if reached.path(*script) < reached.path(least) {
            first = place;
        }
    }
    first
}

/// The scripts of a circle in words, which are the same from whichever script the circle was found.
fn name_of(alloc: Global, reached: &Reached, circle: &Circle) -> Result<Shown, AllocError> {
    let scripts = circle.scripts.as_slice();
    let mut name = Shown::new(alloc);
    push_chain(&mut name, reached, scripts, first_of(reached, scripts))?;
    Ok(name)
}

/// Writes the warning of a circle, with its place.
fn write_warning(rt: &HostRuntime, reached: &Reached, circle: &Circle) -> Result<(), Failure> {
    let last = circle.scripts.last().copied().unwrap_or(0);
    let mut line = Shown::new(rt.alloc());
    push_place(&mut line, reached.path(last), reached.text(last), circle.at)?;
    line.words("warning: this include comes back: ")?;
    push_chain(&mut line, reached, circle.scripts.as_slice(), 0)?;
    write_line(rt, &mut line)
}

/// Writes the warning of a circle, unless it was told before.
fn warn_once(
    rt: &HostRuntime,
    reached: &Reached,
    circle: &Circle,
    told: &mut Told,
) -> Result<(), Failure> {
    let name = name_of(rt.alloc(), reached, circle)?;
    if told.is_new(name.as_str().as_bytes())? {
        write_warning(rt, reached, circle)?;
    }
    Ok(())
}

/// Writes the warning of nine scripts inside one another, where the eighth names the ninth, unless it was told before.
fn warn_of_depth(
    rt: &HostRuntime,
    reached: &Reached,
    includes: &Includes,
    told: &mut Told,
) -> Result<(), Failure> {
    let Some(last) = includes.chain.last().copied() else {
        return Ok(());
    };
    let mut chain = Shown::new(rt.alloc());
    for link in includes.chain.iter() {
        push_path(&mut chain, reached, link.script)?;
        chain.words(" includes ")?;
    }
    push_path(&mut chain, reached, includes.ninth)?;
    if !told.is_new(chain.as_str().as_bytes())? {
        return Ok(());
    }
    let mut line = Shown::new(rt.alloc());
    push_place(
        &mut line,
        reached.path(last.script),
        reached.text(last.script),
        last.at,
    )?;
    put!(line;
        "warning: nine scripts would run inside one another here, and eight may: " text(&chain)
    )?;
    write_line(rt, &mut line)
}

/// Writes a warning for each include that comes back to a script that is still running, and for one that would make nine
/// scripts run inside one another, by the includes of the scripts that are reached. What was told before, from whichever
/// script, is not told again.
pub fn warn_of_includes(
    rt: &HostRuntime,
    reached: &Reached,
    edges: &[Vec<Edge>],
    told: &mut Told,
) -> Result<(), Failure> {
    let includes = includes_of(rt.alloc(), edges)?;
    for circle in includes.circles.iter() {
        warn_once(rt, reached, circle, told)?;
    }
    warn_of_depth(rt, reached, &includes, told)
}
