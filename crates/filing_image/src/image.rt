//! An image: the parts of a filing program that the image format can encode.

ghost use Rattle.std.specs.Prelude.{◌≡◌, ◌<◌, ◌≤◌, ◌^◌, length, map, All, slice_get, IfOk, IfErr, Err, true, false, Some, None, IsTrue, ◌↔◌};
ghost use Rattle.filing_image.specs.Program.{Program, parts, parts_from, program_from, instruction_of, version_of, firsts_of, first_places, list_in};
ghost use Rattle.filing_image.specs.Spelling.{IsShort, IsProgram, IsOfVersion, FitsInstruction, Fits, last_operation};

use crate::fault::FormFault;
use crate::instruction::{Instruction, Operation};
use crate::version::Version;
use std::alloc::Global;
use std::marker::Model;

/// The image of a filing program. Contracts see the program: its budget in steps, its texts, numbers and slots, in
/// version 2 the first place of each of its procedures, and its code.
pub struct Image {
    budget: u32,
    texts: Vec<Vec<u8>>,
    numbers: Vec<u64>,
    slots: u16,
    /// The first place of each procedure; some in version 2 alone.
    first_places: Option<Vec<u16>>,
    code: Vec<Operation>,
}

impl Drop for Image {
    fn drop(self) {
        let Image {
            budget: _,
            texts: _,
            numbers: _,
            slots: _,
            first_places: _,
            code: _,
        } = self;
    }
}

impl Model for Image {
    ghost Value = { Program };

    ghost view = { λ i. program_from i.budget i.texts.items i.numbers.items i.slots
        (list_in i.first_places) i.code.items };

    ghost invariant = { λ i. (length i.texts.items < 2 ^ 16) × (length i.numbers.items < 2 ^ 16)
        × (length i.code.items < 2 ^ 16) × All (λ t. length t.items < 2 ^ 16) i.texts.items
        × All (λ n. n < 2 ^ 64) i.numbers.items
        × All FitsInstruction (map instruction_of i.code.items) × (i.budget < 2 ^ 32)
        × (i.slots < 2 ^ 16) × (length (firsts_of (list_in i.first_places)) < 2 ^ 16)
        × All (λ f. f < 2 ^ 16) (firsts_of (list_in i.first_places))
        × All (λ x. x.op ≤ last_operation (version_of (list_in i.first_places)))
        (map instruction_of i.code.items) };
}

impl Image {
    /// The version 1 image of these parts; `budget` is in steps. `BadForm` (60) only where version 1 has no spelling of
    /// them. It has none for more than 65,535 texts, numbers or instructions, a text of more than 65,535 octets, an
    /// instruction number outside 1 to 21, or a non-zero operand that the operation does not have. `NoMemory` (99) where
    /// an allocation was refused before such a fault was found. Counts and lengths that are too great are always 60,
    /// since they are checked before memory is taken.
    pub fn new(
        alloc: Global,
        budget: u32,
        texts: Vec<Vec<u8>>,
        numbers: Vec<u64>,
        slots: u16,
        instructions: Vec<Instruction>,
    ) -> Result<Image, FormFault>
        ensures made { IfOk result (λ i. parts i ≡
            parts_from budget texts.items numbers.items slots None instructions.items) }
        ensures fits { IfOk result (λ i. Fits (parts i)) }
        ensures refused { let given =
            parts_from budget texts.items numbers.items slots None instructions.items in
            result ≡ Err FormFault.BadForm → IsShort given → IsProgram given → ⊥ }
        ensures short { result ≡ Err FormFault.NoMemory →
            IsShort (parts_from budget texts.items numbers.items slots None instructions.items) }
    {
        Image::of_instructions(alloc, budget, texts, numbers, slots, None, instructions)
    }

    /// The version 2 image of these parts, where `first_places` has the first place of each procedure. It is refused as
    /// in `new`, except that instruction numbers go up to 23. More than 65,535 procedures are `BadForm` (60), too.
    pub fn new_with_procedures(
        alloc: Global,
        budget: u32,
        texts: Vec<Vec<u8>>,
        numbers: Vec<u64>,
        slots: u16,
        first_places: Vec<u16>,
        instructions: Vec<Instruction>,
    ) -> Result<Image, FormFault>
        ensures made { IfOk result (λ i. parts i ≡ parts_from budget texts.items numbers.items slots
            (Some first_places.items) instructions.items) }
        ensures fits { IfOk result (λ i. Fits (parts i)) }
        ensures refused { let given = parts_from budget texts.items numbers.items slots
            (Some first_places.items) instructions.items in
            result ≡ Err FormFault.BadForm → IsShort given → IsProgram given → ⊥ }
        ensures short { result ≡ Err FormFault.NoMemory → IsShort (parts_from budget texts.items
            numbers.items slots (Some first_places.items) instructions.items) }
    {
        let first_places = Some(first_places);
        Image::of_instructions(
            alloc,
            budget,
            texts,
            numbers,
            slots,
            first_places,
            instructions,
        )
    }

    /// The image of these parts, of version 2 where there are first places of procedures.
    pub(crate) fn of_instructions(
        alloc: Global,
        budget: u32,
        texts: Vec<Vec<u8>>,
        numbers: Vec<u64>,
        slots: u16,
        first_places: Option<Vec<u16>>,
        instructions: Vec<Instruction>,
    ) -> Result<Image, FormFault>
        ensures made { IfOk result (λ i. parts i ≡ parts_from budget texts.items numbers.items slots
            (list_in first_places) instructions.items) }
        ensures fits { IfOk result (λ i. Fits (parts i)) }
        ensures refused { let given = parts_from budget texts.items numbers.items slots
            (list_in first_places) instructions.items in
            result ≡ Err FormFault.BadForm → IsShort given → IsProgram given → ⊥ }
        ensures short { result ≡ Err FormFault.NoMemory → IsShort (parts_from budget texts.items
            numbers.items slots (list_in first_places) instructions.items) }
    {
        if texts.len() > 65_535 || numbers.len() > 65_535 || instructions.len() > 65_535 {
            return Err(FormFault::BadForm);
        }
        let firsts = listed(&first_places);
        if firsts.len() > 65_535 {
            return Err(FormFault::BadForm);
        }
        places_fit(firsts);
        if !are_short(&texts) {
            return Err(FormFault::BadForm);
        }
        if !are_of(version_of(&first_places), &instructions) {
            return Err(FormFault::BadForm);
        }
        let code = operations(alloc, &instructions)?;
        let image = Image {
            budget,
            texts,
            numbers,
            slots,
            first_places,
            code,
        };
        image.fits();
        Ok(image)
    }

    /// The image of these parts, with the code given as operations; `budget` is in steps. It is of version 2 where there
    /// are first places of procedures, and else of version 1. It takes no memory. `BadForm` (60) exactly where the
    /// version has no spelling of the parts: more than 65,535 texts, numbers, procedures or operations, a text of more
    /// than 65,535 octets, or in version 1 a call or a return. There is no other refusal.
    pub fn from_code(
        budget: u32,
        texts: Vec<Vec<u8>>,
        numbers: Vec<u64>,
        slots: u16,
        first_places: Option<Vec<u16>>,
        code: Vec<Operation>,
    ) -> Result<Image, FormFault>
        ensures made { IfOk result (λ i. i ≡
            program_from budget texts.items numbers.items slots (list_in first_places) code.items) }
        ensures refused { let given = parts (program_from budget texts.items numbers.items slots
            (list_in first_places) code.items) in
            IfErr result (λ f. (f ≡ FormFault.BadForm) × (IsShort given → IsOfVersion given → ⊥)) }
    {
        if texts.len() > 65_535 || numbers.len() > 65_535 || code.len() > 65_535 {
            return Err(FormFault::BadForm);
        }
        let firsts = listed(&first_places);
        if firsts.len() > 65_535 {
            return Err(FormFault::BadForm);
        }
        places_fit(firsts);
        if has_long(&texts) {
            return Err(FormFault::BadForm);
        }
        if !has(version_of(&first_places), &code) {
            return Err(FormFault::BadForm);
        }
        all_fit(&code);
        Ok(Image {
            budget,
            texts,
            numbers,
            slots,
            first_places,
            code,
        })
    }

    /// The version of the format that the image has.
    pub fn version(&self) -> Version
        ensures { result ≡ version_of self.now.procedures }
    {
        version_of(&self.first_places)
    }

    /// The first place of each procedure, procedure 0 first; none in version 1.
    pub fn first_places(&self) -> &[u16]
        ensures value { result.now ≡ first_places self.now }
        ensures short { length result.now < 2 ^ 16 }
    {
        listed(&self.first_places)
    }

    /// The budget that the image declares, in steps.
    pub fn budget(&self) -> u32
        ensures { result ≡ self.now.budget }
    {
        self.budget
    }

    /// The operations of the code, from place 0 on; at most 65,535.
    pub fn code(&self) -> &[Operation]
        ensures value { result.now ≡ self.now.code }
        ensures short { length result.now < 2 ^ 16 }
    {
        &self.code
    }

    /// The numbers that operations name by their places, which count from 0; at most 65,535.
    pub fn numbers(&self) -> &[u64]
        ensures value { result.now ≡ self.now.numbers }
        ensures short { length result.now < 2 ^ 16 }
    {
        &self.numbers
    }

    /// The number of slots. `Mark` sets a slot, and `Marked` reads it.
    pub fn slots(&self) -> u16
        ensures { result ≡ self.now.slots }
    {
        self.slots
    }

    /// The number of texts, at most 65,535.
    pub fn text_count(&self) -> usize
        ensures value { result ≡ length self.now.texts }
        ensures short { result < 2 ^ 16 }
    {
        self.texts.len()
    }

    /// The text at a place, which counts from 0 and must be below `text_count`; at most 65,535 octets.
    pub fn text(&self, place: usize) -> &[u8]
        requires { place < length self.now.texts }
        ensures value { slice_get self.now.texts place ≡ Some result.now }
        ensures short { length result.now < 2 ^ 16 }
    {
        &self.texts[place]
    }

    /// The texts, place 0 first.
    pub(crate) fn texts(&self) -> &[Vec<u8>]
        ensures value { map (λ t. t.items) result.now ≡ self.now.texts }
        ensures short { All (λ t. length t.items < 2 ^ 16) result.now }
    {
        &self.texts
    }

    /// Proves that each part of an image fits its octets; it has no effect.
    pub(crate) fn fits(&self)
        ensures { Fits (parts self.now) }
    {
        let _ = &self.budget;
    }
}

/// Whether no text has more than 65,535 octets.
fn are_short(texts: &[Vec<u8>]) -> bool
    ensures { IsTrue result ↔ All (λ t. length t.items < 2 ^ 16) texts.now }
{
    texts.iter().all(|text| text.len() <= 65_535)
}

/// Whether a text has more than 65,535 octets.
fn has_long(texts: &[Vec<u8>]) -> bool
    ensures long { result ≡ true → All (λ t. length t.items < 2 ^ 16) texts.now → ⊥ }
    ensures short { result ≡ false → All (λ t. length t.items < 2 ^ 16) texts.now }
{
    !are_short(texts)
}

/// The version of an image with these first places of procedures.
fn version_of(first_places: &Option<Vec<u16>>) -> Version
    ensures { result ≡ version_of (list_in first_places.now) }
{
    match first_places {
        Some(_) => Version::Two,
        None => Version::One,
    }
}

/// The first places of the procedures, none in version 1.
fn listed(first_places: &Option<Vec<u16>>) -> &[u16]
    ensures { result.now ≡ firsts_of (list_in first_places.now) }
{
    match first_places {
        Some(firsts) => firsts,
        None => &[],
    }
}

/// Proves that each place fits its octets; it has no effect.
fn places_fit(places: &[u16])
    ensures { All (λ f. f < 2 ^ 16) places.now }
{
    let _count = places.len();
}

/// Whether a version has the operations that the instructions encode.
fn are_of(version: Version, instructions: &[Instruction]) -> bool
    ensures { IsTrue result ↔ All (λ i. i.op ≤ last_operation version) instructions.now }
{
    let last = version.last_operation();
    instructions
        .iter()
        .all(|instruction| instruction.op <= last)
}

/// Whether a version has the operations.
fn has(version: Version, code: &[Operation]) -> bool
    ensures { IsTrue result ↔ All (λ o. (instruction_of o).op ≤ last_operation version) code.now }
{
    let last = version.last_operation();
    code.iter()
        .all(|operation| operation.instruction().op <= last)
}

/// Proves that each operation fits its octets; it has no effect.
fn all_fit(code: &[Operation])
    ensures { All (λ o. FitsInstruction (instruction_of o)) code.now }
{
    for operation in code {
        operation.fits();
    }
}

/// The operations that the instructions encode; `BadForm` where one encodes none.
fn operations(alloc: Global, instructions: &[Instruction]) -> Result<Vec<Operation>, FormFault>
    ensures made { IfOk result (λ v. map instruction_of v.items ≡ instructions.now) }
    ensures fits { IfOk result (λ v. All FitsInstruction (map instruction_of v.items)) }
    ensures refused { result ≡ Err FormFault.BadForm → (code : _)
        → map instruction_of code ≡ instructions.now → ⊥ }
{
    let mut code = Vec::new(alloc);
    for instruction in instructions {
        let Some(operation) = Operation::of(*instruction) else {
            return Err(FormFault::BadForm);
        };
        code.push(operation)?;
    }
    Ok(code)
}
