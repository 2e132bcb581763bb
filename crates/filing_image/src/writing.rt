//! Encodes images as octets.

ghost use Rattle.std.specs.Prelude.{◌≡◌, ◌<◌, ◌^◌, ◌++◌, length, map, All, OnOk, IfOk};
ghost use Rattle.std.specs.List.{flat_map};
ghost use Rattle.std.specs.Int.{w16, w32, w64, to_be_bytes};
ghost use Rattle.filing_image.specs.Program.{parts, instruction_of, version_of};
ghost use Rattle.filing_image.specs.Spelling.{spelling, mark, text, instruction, counts, procedure_count, procedures, Fits};

use crate::image::Image;
use crate::instruction::{Instruction, Operation};
use crate::version::Version;
use std::alloc::{AllocError, Global};

/// The octets that spell an image. Each image has one spelling, and `decode` of it answers the same image. The only
/// error is a refused allocation. Time and memory are linear in the number of octets.
pub fn encode(alloc: Global, image: &Image) -> Result<Vec<u8>, AllocError>
    ensures spelled { IfOk result (λ v. v.items ≡ spelling (parts image.now)) }
    // Each part fits its octets.
    ensures fits { Fits (parts image.now) }
{
    image.fits();
    let mut out = Vec::new(alloc);
    put_mark(&mut out, image.version())?;
    out.extend_from_slice(&image.budget().to_be_bytes())?;
    put_counts(&mut out, image)?;
    put_texts(&mut out, image.texts())?;
    put_numbers(&mut out, image.numbers())?;
    put_first_places(&mut out, image)?;
    put_code(&mut out, image.code())?;
    Ok(out)
}

/// Writes the mark with which each image of a version begins: `SFI1` or `SFI2`.
fn put_mark(out: &mut Vec<u8>, version: Version) -> Result<(), AllocError>
    ensures { OnOk result (out.new.items ≡ out.old.items ++ mark version) }
{
    let last = match version {
        Version::One => 0x31,
        Version::Two => 0x32,
    };
    out.extend_from_slice(&[0x53, 0x46, 0x49, last])?;
    Ok(())
}

/// Writes the counts of texts, numbers, slots, in version 2 procedures, and instructions, in two octets each.
fn put_counts(out: &mut Vec<u8>, image: &Image) -> Result<(), AllocError>
    ensures { OnOk result (out.new.items ≡ out.old.items ++ counts image.now) }
{
    put_u16(out, image.text_count() as u16)?;
    put_u16(out, image.numbers().len() as u16)?;
    put_u16(out, image.slots())?;
    put_procedure_count(out, image)?;
    put_u16(out, image.code().len() as u16)?;
    Ok(())
}

/// Writes the count of procedures, which version 2 alone has, in two octets.
fn put_procedure_count(out: &mut Vec<u8>, image: &Image) -> Result<(), AllocError>
    ensures { OnOk result (out.new.items ≡ out.old.items ++ procedure_count image.now.procedures) }
{
    match image.version() {
        Version::One => Ok(()),
        Version::Two => put_u16(out, image.first_places().len() as u16),
    }
}

/// Writes the first place of each procedure; nothing in version 1.
fn put_first_places(out: &mut Vec<u8>, image: &Image) -> Result<(), AllocError>
    ensures { OnOk result (out.new.items ≡ out.old.items ++ procedures image.now.procedures) }
{
    put_places(out, image.first_places())
}

/// Writes places in two octets each, big-endian.
fn put_places(out: &mut Vec<u8>, places: &[u16]) -> Result<(), AllocError>
    ensures { OnOk result (out.new.items ≡ out.old.items ++ flat_map (to_be_bytes w16) places.now) }
{
    for place in places {
        put_u16(out, *place)?;
    }
    Ok(())
}

/// Writes a number in two octets, big-endian.
fn put_u16(out: &mut Vec<u8>, number: u16) -> Result<(), AllocError>
    ensures { OnOk result (out.new.items ≡ out.old.items ++ to_be_bytes w16 number) }
{
    out.extend_from_slice(&number.to_be_bytes())?;
    Ok(())
}

/// Writes texts, each after its length.
fn put_texts(out: &mut Vec<u8>, texts: &[Vec<u8>]) -> Result<(), AllocError>
    requires { All (λ t. length t.items < 2 ^ 16) texts.now }
    ensures { OnOk result
        (out.new.items ≡ out.old.items ++ flat_map text (map (λ t. t.items) texts.now)) }
{
    for octets in texts {
        put_text(out, octets)?;
    }
    Ok(())
}

/// Writes a text after its length.
fn put_text(out: &mut Vec<u8>, octets: &[u8]) -> Result<(), AllocError>
    requires { length octets.now < 2 ^ 16 }
    ensures { OnOk result (out.new.items ≡ out.old.items ++ text octets.now) }
{
    put_u16(out, octets.len() as u16)?;
    out.extend_from_slice(octets)?;
    Ok(())
}

/// Writes numbers in eight octets each, big-endian.
fn put_numbers(out: &mut Vec<u8>, numbers: &[u64]) -> Result<(), AllocError>
    ensures { OnOk result
        (out.new.items ≡ out.old.items ++ flat_map (to_be_bytes w64) numbers.now) }
{
    for number in numbers {
        out.extend_from_slice(&number.to_be_bytes())?;
    }
    Ok(())
}

/// Writes operations as instructions.
fn put_code(out: &mut Vec<u8>, code: &[Operation]) -> Result<(), AllocError>
    ensures { OnOk result
        (out.new.items ≡ out.old.items ++ flat_map instruction (map instruction_of code.now)) }
{
    for operation in code {
        put_instruction(out, operation.instruction())?;
    }
    Ok(())
}

/// Writes an instruction in four octets.
fn put_instruction(out: &mut Vec<u8>, written: Instruction) -> Result<(), AllocError>
    ensures { OnOk result (out.new.items ≡ out.old.items ++ instruction written) }
{
    let Instruction { op, a, b } = written;
    out.extend_from_slice(&op.to_be_bytes())?;
    out.extend_from_slice(&a.to_be_bytes())?;
    put_u16(out, b)?;
    Ok(())
}
