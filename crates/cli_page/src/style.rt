//! The style of a page, and the policy that lets nothing else in.

ghost use Rattle.std.specs.Prelude.{◌≡◌, IfOk, string_bytes};
ghost use Rattle.cli_page.specs.Heads.{policy_for, style_sum as sum_of_style};

use base64::engine::general_purpose::STANDARD;
use sha2::{Digest, Sha256};
use std::alloc::{AllocError, Global};

/// The style of a page: for screens, light and dark, and for paper of the size A4.
pub const STYLE: &str = "
:root { color-scheme: light dark; --ink: #16191d; --paper: #fff; --faint: #59616b; --line: #b9c0c9; --band: #f1f4f7; --due: #a3261f; --later: #3c6fa6; --note: #fdf3d3; }
@media (prefers-color-scheme: dark) { :root { --ink: #e8eaed; --paper: #15181c; --faint: #a6aeb8; --line: #4a525c; --band: #20252b; --due: #f0857a; --later: #82b1e6; --note: #3a3216; } }
* { box-sizing: border-box; }
body { max-width: 62rem; margin: 0 auto; padding: 1.5rem; color: var(--ink); background: var(--paper); font: 11pt/1.45 \"Segoe UI\", \"Helvetica Neue\", Arial, \"Liberation Sans\", \"DejaVu Sans\", sans-serif; }
h1 { margin: 0 0 .6rem; font-size: 1.7rem; line-height: 1.2; }
h2 { margin: 2rem 0 .5rem; padding-bottom: .2rem; border-bottom: 2px solid var(--ink); font-size: 1.2rem; }
p { margin: .5rem 0; }
.facts { display: grid; grid-template-columns: max-content 1fr; gap: .15rem 1rem; margin: 0; }
.facts dt { color: var(--faint); }
.facts dd { margin: 0; overflow-wrap: anywhere; }
.note { margin: 1rem 0; padding: .6rem .8rem; border-left: .3rem solid var(--due); background: var(--note); }
table { width: 100%; margin: .6em 0; border-collapse: collapse; font-size: .92em; }
caption { padding: .3rem 0; color: var(--faint); text-align: left; }
th, td { padding: .3rem .5rem; border-bottom: 1px solid var(--line); text-align: left; vertical-align: top; overflow-wrap: anywhere; }
thead th { border-bottom: 2px solid var(--line); background: var(--band); vertical-align: bottom; overflow-wrap: normal; }
tbody th { font-weight: normal; }
tfoot th, tfoot td { border-top: 2px solid var(--line); font-weight: bold; }
.n { text-align: right; overflow-wrap: normal; }
.n, .d { font-variant-numeric: tabular-nums; }
.p { width: 32%; }
.t { width: 30%; }
.index { max-width: 90rem; page: wide; }
.index table { table-layout: fixed; }
.index th.n { width: 4.4em; }
.index th.d { width: 6em; }
.index th.h { width: 16.5em; }
.index th.k { width: 19%; }
.d, time { white-space: nowrap; }
.sign { width: 7em; border-left: 1px solid var(--line); }
.barred td, .barred th { color: var(--faint); }
figure { margin: .6rem 0; }
svg { display: block; width: 100%; height: auto; }
svg text { fill: var(--ink); font-size: 11px; font-variant-numeric: tabular-nums; }
svg .axis { stroke: var(--ink); }
svg .grid { stroke: var(--line); stroke-dasharray: 2 3; }
svg .day { stroke: var(--ink); stroke-dasharray: 5 3; }
.c-due { fill: var(--due); }
.c-later { fill: var(--later); }
.signature { margin-top: 1.5rem; break-inside: avoid; }
.signature ul { display: grid; grid-template-columns: 1fr 1fr; gap: 1.6rem 2rem; margin: 1.8rem 0 0; padding: 0; list-style: none; }
.signature li { padding-bottom: .2rem; border-bottom: 1px solid var(--ink); }
footer { margin-top: 2rem; padding-top: .4rem; border-top: 1px solid var(--line); color: var(--faint); font-size: .85rem; }
@page wide { size: A4 landscape; }
@page { size: A4; margin: 16mm 15mm 18mm; @bottom-right { content: counter(page) \" / \" counter(pages); font: 9pt sans-serif; } }
@media print {
:root { color-scheme: light; --ink: #000; --paper: #fff; --faint: #444; --line: #999; --band: #eee; --due: #a3261f; --later: #3c6fa6; --note: #fff; }
body { max-width: none; padding: 0; font-size: 9.5pt; print-color-adjust: exact; -webkit-print-color-adjust: exact; }
.index { font-size: 8.5pt; line-height: 1.3; }
.index td, .index th { padding: .1rem .25rem; }
h2, caption, thead { break-after: avoid; }
tbody tr:first-child, tfoot tr { break-before: avoid; }
tr, figure, .note { break-inside: avoid; }
thead { display: table-header-group; }
tfoot { display: table-row-group; }
.due { break-before: page; }
.due tbody td, .due tbody th { height: 9mm; }
}
";

/// What a page lets in: nothing but this style, which is named by its SHA-256 (Content Security Policy Level 3, section 2.3.1).
#[tactic(auto, unfolding(crate::specs::Heads::policy_for))]
pub fn policy(alloc: Global) -> Result<String, AllocError>
    ensures { IfOk result (λ text. string_bytes text ≡ policy_for sum_of_style) }
{
    let sum = style_sum(alloc)?;
    format!(in alloc;
        "default-src 'none'; style-src 'sha256-{sum}'; base-uri 'none'; form-action 'none'"
    )
}

/// The SHA-256 of the style, in base64.
#[tactic(auto, unfolding(crate::specs::Heads::style_sum))]
fn style_sum(alloc: Global) -> Result<String, AllocError>
    ensures { IfOk result (λ sum. string_bytes sum ≡ sum_of_style) }
{
    let mut hasher = Sha256::new();
    hasher.update(STYLE.as_bytes());
    let sum = hasher.finalize();
    STANDARD.encode(alloc, sum.as_slice())
}
