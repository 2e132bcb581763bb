//! Payloads as scripts, images and cases of messages. A script goes to `parser` of `sieve_text` and `checked` of
//! `sieve_check`, an image to `reading` of `filing_image` and `verifier` of `filing_verify`. The case of a message is
//! made in `whole` of `mail_case`.

ghost use Rattle.std.specs.Prelude.{◌≡◌, ℕ, List, ◌≤◌, length, IfOk, IfErr, OnOk};
ghost use Rattle.class_plan.specs.Plans.{is_open_in};
ghost use Rattle.sieve_syntax.specs.View.{tree_of};
ghost use Rattle.mail_case.specs.Message.{case_of};
ghost use Rattle.mail_case.specs.Whole.{facts_by};
ghost use Rattle.desk_commands.specs.Limits.{greatest_image, greatest_message, greatest_script};
ghost use Rattle.desk_commands.specs.Parts.{IsGood, IsGoodImage, RefusesImage, RefusesScript};
ghost use Rattle.desk_commands.specs.Payloads.{IsOf};
ghost use Rattle.filing_desk.specs.Judging.{IsFaultOf, IsLongMessage};

use crate::classes::PlanClasses;
use class_plan::Plan;
use desk_commands::{DeskFault, MAX_IMAGE_OCTETS, MAX_MESSAGE_OCTETS, MAX_SCRIPT_OCTETS, Payload};
use filing_image::decode;
use filing_machine::WholeCase;
use filing_verify::{Verified, verify};
use sieve_check::{Checked, check};
use sieve_text::{ScanRefusal, TextRefusal, parse};
use std::alloc::Global;

/// The text of a script's payload. Refused with 15 where it is over its limit.
pub fn script_text(script: &Payload) -> Result<&[u8], DeskFault>
    ensures short { IfOk result (λ text. length text.now ≤ greatest_script) }
    ensures text { (s : List ℕ) → IsOf greatest_script script.now s
        → IfOk result (λ text. text.now ≡ s) }
    ensures refused { (s : List ℕ) → IsOf greatest_script script.now s →
        IfErr result (IsFaultOf (RefusesScript s) greatest_script s) }
{
    let too_long = TextRefusal::Scan(ScanRefusal::ScriptTooLong);
    script.octets(MAX_SCRIPT_OCTETS, DeskFault::Text(too_long, 0))
}

/// The checked script of a text within its limit. Refused with 10 to 16, 20 and 21 as a text, and with 30 to 41 by the
/// check.
pub fn judge_text(alloc: Global, text: &[u8]) -> Result<Checked, DeskFault>
    requires { length text.now ≤ greatest_script }
    ensures good { IfOk result (λ c. IsGood text.now (tree_of c.script)) }
    ensures refused { IfErr result (IsFaultOf (RefusesScript text.now) greatest_script text.now) }
{
    let tree = parse(alloc, text)?;
    let checked = check(tree)?;
    Ok(checked)
}

/// The checked script of a payload. Refused with 10 to 16, 20 and 21 as a text, and with 30 to 41 by the check.
pub fn judge_script(alloc: Global, script: &Payload) -> Result<Checked, DeskFault>
    ensures short { (s : List ℕ) → IsOf greatest_script script.now s
        → OnOk result (length s ≤ greatest_script) }
    ensures good { (s : List ℕ) → IsOf greatest_script script.now s
        → IfOk result (λ c. IsGood s (tree_of c.script)) }
    ensures refused { (s : List ℕ) → IsOf greatest_script script.now s →
        IfErr result (IsFaultOf (RefusesScript s) greatest_script s) }
{
    let text = script_text(script)?;
    judge_text(alloc, text)
}

/// The program of an image within its limit, from its octets.
fn judge_octets(alloc: Global, image: &[u8]) -> Result<Verified, DeskFault>
    requires { length image.now ≤ greatest_image }
    ensures good { IfOk result (λ v. IsGoodImage image.now v) }
    ensures refused { IfErr result (IsFaultOf (RefusesImage image.now) greatest_image image.now) }
{
    let image = decode(alloc, image)?;
    match verify(alloc, image) {
        Ok(program) => Ok(program),
        Err((fault, _)) => Err(DeskFault::from(fault)),
    }
}

/// The program of an image that may run. Refused with 61 (length), 60 (form) or 62 to 66 (code).
pub fn judge_image(alloc: Global, image: &Payload) -> Result<Verified, DeskFault>
    ensures short { (i : List ℕ) → IsOf greatest_image image.now i
        → OnOk result (length i ≤ greatest_image) }
    ensures good { (i : List ℕ) → IsOf greatest_image image.now i
        → IfOk result (λ v. IsGoodImage i v) }
    ensures refused { (i : List ℕ) → IsOf greatest_image image.now i →
        IfErr result (IsFaultOf (RefusesImage i) greatest_image i) }
{
    match image.octets(MAX_IMAGE_OCTETS, DeskFault::ImageTooLong) {
        Ok(octets) => judge_octets(alloc, octets),
        Err(fault) => Err(fault),
    }
}

/// The case of a message and of the open classes of a plan. Refused with 95 where the message has more than 8,388,608
/// octets.
pub fn judge_message<'a>(
    alloc: Global,
    plan: &'a Plan,
    message: &Payload,
) -> Result<WholeCase<PlanClasses<'a>>, DeskFault>
    ensures short { (m : List ℕ) → IsOf greatest_message message.now m
        → OnOk result (length m ≤ greatest_message) }
    ensures case { (m : List ℕ) → IsOf greatest_message message.now m → IfOk result
        (λ c. facts_by (λ p. is_open_in (p.0).now) c ≡ case_of m (is_open_in plan.now)) }
    ensures refused { (m : List ℕ) → IsOf greatest_message message.now m →
        IfErr result (IsFaultOf (IsLongMessage m) greatest_message m) }
{
    let octets = message.octets(MAX_MESSAGE_OCTETS, DeskFault::MessageTooLong)?;
    let case = WholeCase::from_message(alloc, octets, PlanClasses(plan))?;
    Ok(case)
}
