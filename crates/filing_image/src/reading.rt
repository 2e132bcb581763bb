//! Decodes images from octets.

ghost use Rattle.std.specs.Prelude.{◌≡◌, map, IfOk, Err, Some, None};
ghost use Rattle.std.specs.Int.{w8, w16, w32, w64};
ghost use Rattle.filing_image.specs.Program.{Program, parts, list_in};
ghost use Rattle.filing_image.specs.Spelling.{spelling, Fits};
ghost use Rattle.filing_image.specs.Reading.{Gives, number_at, text_at, instruction_at, many_at, version_of_octet, version_and_rest, procedure_count_at, procedures_at, counts_at, counts_of, parts_at, parts_of, all_of};

use crate::fault::FormFault;
use crate::image::Image;
use crate::instruction::Instruction;
use crate::version::Version;
use std::alloc::Global;

/// Decodes the image that the octets spell, all of them. `BadForm` (60) only where they spell no image. They then have
/// another mark, fewer or more octets than the counts and lengths say, an instruction number that there is not, or a
/// non-zero operand that the operation does not have. Instruction numbers are 1 to 21 in version 1, and 1 to 23 in
/// version 2. `NoMemory` (99) where an allocation was refused before such a fault was found. Time and memory are linear
/// in the number of octets.
pub fn decode(alloc: Global, octets: &[u8]) -> Result<Image, FormFault>
    // The octets are the image's spelling.
    ensures found { IfOk result (λ i. octets.now ≡ spelling (parts i)) }
    // Each part fits its octets.
    ensures fits { IfOk result (λ i. Fits (parts i)) }
    // They are the spelling of no other program.
    ensures only { IfOk result
        (λ i. (p : Program) → Fits (parts p) → octets.now ≡ spelling (parts p) → i ≡ p) }
    // No program's spelling is refused for its form.
    ensures refused { result ≡ Err FormFault.BadForm → (p : Program) → Fits (parts p) →
        octets.now ≡ spelling (parts p) → ⊥ }
{
    let written = all(alloc, octets)?;
    Image::of_instructions(
        alloc,
        written.budget,
        written.texts,
        written.numbers,
        written.slots,
        written.first_places,
        written.instructions,
    )
}

/// The parts of an image, with the code as instructions.
#[derive(Drop)]
struct Written {
    budget: u32,
    texts: Vec<Vec<u8>>,
    numbers: Vec<u64>,
    slots: u16,
    first_places: Option<Vec<u16>>,
    instructions: Vec<Instruction>,
}

/// The parts that the octets spell, with no octet left over.
#[tactic(auto, unfolding(crate::specs::Reading::all_of))]
fn all(alloc: Global, octets: &[u8]) -> Result<Written, FormFault>
    ensures { Gives parts_of result (all_of octets.now) }
{
    let (written, rest) = written_at(alloc, octets)?;
    if !rest.is_empty() {
        return Err(FormFault::BadForm);
    }
    Ok(written)
}

/// Reads the parts of an image from the front; answers them and the rest.
#[tactic(auto, unfolding(crate::specs::Reading::parts_at))]
fn written_at(alloc: Global, octets: &[u8]) -> Result<(Written, &[u8]), FormFault>
    ensures { Gives (λ x. (parts_of x.0, x.1.now)) result (parts_at octets.now) }
{
    let (version, rest) = after_mark(octets)?;
    let (budget, rest) = u32_at(rest)?;
    let (heading, rest) = heading_of(version, rest)?;
    let (texts, rest) = texts_of(alloc, heading.texts, rest)?;
    let (numbers, rest) = numbers_of(alloc, heading.numbers, rest)?;
    let (first_places, rest) = first_places_of(alloc, heading.procedures, rest)?;
    let (instructions, rest) = instructions_of(alloc, heading.instructions, rest)?;
    let written = Written {
        budget,
        texts,
        numbers,
        slots: heading.slots,
        first_places,
        instructions,
    };
    Ok((written, rest))
}

/// Reads the mark `SFI1` or `SFI2`; answers its version and the rest.
#[tactic(auto, unfolding(crate::specs::Reading::version_and_rest))]
fn after_mark(octets: &[u8]) -> Result<(Version, &[u8]), FormFault>
    ensures { Gives (λ x. (x.0, x.1.now)) result (version_and_rest octets.now) }
{
    match octets {
        [0x53, 0x46, 0x49, told, rest @ ..] => Ok((version_of_octet(*told)?, rest)),
        _ => Err(FormFault::BadForm),
    }
}

/// The version by the last octet of a mark.
fn version_of_octet(told: u8) -> Result<Version, FormFault>
    ensures { Gives (λ v. v) result (version_of_octet told) }
{
    match told {
        0x31 => Ok(Version::One),
        0x32 => Ok(Version::Two),
        _ => Err(FormFault::BadForm),
    }
}

/// The counts of an image.
#[derive(Clone, Copy)]
struct Heading {
    texts: u16,
    numbers: u16,
    slots: u16,
    /// Some in version 2 alone.
    procedures: Option<u16>,
    instructions: u16,
}

/// Reads the counts; answers them and the rest.
#[tactic(auto, unfolding(crate::specs::Reading::counts_at))]
fn heading_of(version: Version, octets: &[u8]) -> Result<(Heading, &[u8]), FormFault>
    ensures { Gives (λ x. (counts_of x.0, x.1.now)) result (counts_at version octets.now) }
{
    let (texts, rest) = u16_at(octets)?;
    let (numbers, rest) = u16_at(rest)?;
    let (slots, rest) = u16_at(rest)?;
    let (procedures, rest) = procedure_count_of(version, rest)?;
    let (instructions, rest) = u16_at(rest)?;
    let heading = Heading {
        texts,
        numbers,
        slots,
        procedures,
        instructions,
    };
    Ok((heading, rest))
}

/// Reads the count of procedures, which version 2 alone has; answers it and the rest.
#[tactic(auto, unfolding(crate::specs::Reading::procedure_count_at))]
fn procedure_count_of(version: Version, octets: &[u8]) -> Result<(Option<u16>, &[u8]), FormFault>
    ensures { Gives (λ x. (x.0, x.1.now)) result (procedure_count_at version octets.now) }
{
    match version {
        Version::One => Ok((None, octets)),
        Version::Two => {
            let (count, rest) = u16_at(octets)?;
            Ok((Some(count), rest))
        }
    }
}

/// Reads `count` texts; answers them and the rest.
fn texts_of(alloc: Global, count: u16, octets: &[u8]) -> Result<(Vec<Vec<u8>>, &[u8]), FormFault>
    ensures { Gives
        (λ x. (map (λ t. t.items) x.0.items, x.1.now)) result (many_at text_at count octets.now) }
{
    let mut texts = Vec::new(alloc);
    let mut rest = octets;
    for _ in 0..count {
        let (text, after) = text_of(alloc, rest)?;
        texts.push(text)?;
        rest = after;
    }
    Ok((texts, rest))
}

/// Reads `count` numbers; answers them and the rest.
fn numbers_of(alloc: Global, count: u16, octets: &[u8]) -> Result<(Vec<u64>, &[u8]), FormFault>
    ensures { Gives (λ x. (x.0.items, x.1.now)) result (many_at (number_at w64) count octets.now) }
{
    let mut numbers = Vec::new(alloc);
    let mut rest = octets;
    for _ in 0..count {
        let (number, after) = u64_at(rest)?;
        numbers.push(number)?;
        rest = after;
    }
    Ok((numbers, rest))
}

/// Reads the first places of `count` procedures, none where there is no count; answers them and the rest.
#[tactic(auto, unfolding(crate::specs::Reading::procedures_at))]
fn first_places_of(
    alloc: Global,
    count: Option<u16>,
    octets: &[u8],
) -> Result<(Option<Vec<u16>>, &[u8]), FormFault>
    ensures { Gives (λ x. (list_in x.0, x.1.now)) result (procedures_at count octets.now) }
{
    match count {
        None => Ok((None, octets)),
        Some(count) => {
            let (places, rest) = places_of(alloc, count, octets)?;
            Ok((Some(places), rest))
        }
    }
}

/// Reads `count` places; answers them and the rest.
fn places_of(alloc: Global, count: u16, octets: &[u8]) -> Result<(Vec<u16>, &[u8]), FormFault>
    ensures { Gives (λ x. (x.0.items, x.1.now)) result (many_at (number_at w16) count octets.now) }
{
    let mut places = Vec::new(alloc);
    let mut rest = octets;
    for _ in 0..count {
        let (place, after) = u16_at(rest)?;
        places.push(place)?;
        rest = after;
    }
    Ok((places, rest))
}

/// Reads `count` instructions; answers them and the rest.
fn instructions_of(
    alloc: Global,
    count: u16,
    octets: &[u8],
) -> Result<(Vec<Instruction>, &[u8]), FormFault>
    ensures { Gives (λ x. (x.0.items, x.1.now)) result (many_at instruction_at count octets.now) }
{
    let mut instructions = Vec::new(alloc);
    let mut rest = octets;
    for _ in 0..count {
        let (instruction, after) = instruction_of(rest)?;
        instructions.push(instruction)?;
        rest = after;
    }
    Ok((instructions, rest))
}

/// Reads a text with its length before it; answers the text and the rest.
#[tactic(auto, unfolding(crate::specs::Reading::text_at))]
fn text_of(alloc: Global, octets: &[u8]) -> Result<(Vec<u8>, &[u8]), FormFault>
    ensures { Gives (λ x. (x.0.items, x.1.now)) result (text_at octets.now) }
{
    let (len, rest) = u16_at(octets)?;
    let len = len as usize;
    if rest.len() < len {
        return Err(FormFault::BadForm);
    }
    let (text, rest) = rest.split_at(len);
    Ok((Vec::from_slice(alloc, text)?, rest))
}

/// Reads an instruction; answers it and the rest.
#[tactic(auto, unfolding(crate::specs::Reading::instruction_at))]
fn instruction_of(octets: &[u8]) -> Result<(Instruction, &[u8]), FormFault>
    ensures { Gives (λ x. (x.0, x.1.now)) result (instruction_at octets.now) }
{
    let (op, rest) = u8_at(octets)?;
    let (a, rest) = u8_at(rest)?;
    let (b, rest) = u16_at(rest)?;
    Ok((Instruction { op, a, b }, rest))
}

/// Reads a number of one octet; answers it and the rest.
fn u8_at(octets: &[u8]) -> Result<(u8, &[u8]), FormFault>
    ensures { Gives (λ x. (x.0, x.1.now)) result (number_at w8 octets.now) }
{
    if octets.len() < 1 {
        return Err(FormFault::BadForm);
    }
    let (front, rest) = octets.split_at(1);
    Ok((u8::from_be_bytes([front[0]]), rest))
}

/// Reads a big-endian number of two octets; answers it and the rest.
fn u16_at(octets: &[u8]) -> Result<(u16, &[u8]), FormFault>
    ensures { Gives (λ x. (x.0, x.1.now)) result (number_at w16 octets.now) }
{
    if octets.len() < 2 {
        return Err(FormFault::BadForm);
    }
    let (front, rest) = octets.split_at(2);
    Ok((u16::from_be_bytes([front[0], front[1]]), rest))
}

/// Reads a big-endian number of four octets; answers it and the rest.
fn u32_at(octets: &[u8]) -> Result<(u32, &[u8]), FormFault>
    ensures { Gives (λ x. (x.0, x.1.now)) result (number_at w32 octets.now) }
{
    if octets.len() < 4 {
        return Err(FormFault::BadForm);
    }
    let (front, rest) = octets.split_at(4);
    let number = u32::from_be_bytes([front[0], front[1], front[2], front[3]]);
    Ok((number, rest))
}

/// Reads a big-endian number of eight octets; answers it and the rest.
fn u64_at(octets: &[u8]) -> Result<(u64, &[u8]), FormFault>
    ensures { Gives (λ x. (x.0, x.1.now)) result (number_at w64 octets.now) }
{
    if octets.len() < 8 {
        return Err(FormFault::BadForm);
    }
    let (front, rest) = octets.split_at(8);
    let number = u64::from_be_bytes([
        front[0], front[1], front[2], front[3], front[4], front[5], front[6], front[7],
    ]);
    Ok((number, rest))
}
