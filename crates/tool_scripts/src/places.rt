//! The instruction by which an image is refused.

use filing_image::{Image, Operation, Version};
use filing_verify::{VerifyFault, verify};
use std::alloc::{AllocError, Global};
use tool_findings::Search;

/// The texts of an image.
fn texts_of(alloc: Global, image: &Image) -> Result<Vec<Vec<u8>>, AllocError> {
    let mut texts = Vec::new(alloc);
    for place in 0..image.text_count() {
        texts.push(Vec::from_slice(alloc, image.text(place))?)?;
    }
    Ok(texts)
}

/// The first places of the procedures of an image; none in version 1, which has no procedures.
fn first_places_of(alloc: Global, image: &Image) -> Result<Option<Vec<u16>>, AllocError> {
    match image.version() {
        Version::One => Ok(None),
        Version::Two => Ok(Some(Vec::from_slice(alloc, image.first_places())?)),
    }
}

/// The first `count` instructions of an image, and STOP in place of each other one.
fn code_up_to(alloc: Global, image: &Image, count: usize) -> Result<Vec<Operation>, AllocError> {
    let mut code = Vec::new(alloc);
    for (place, operation) in image.code().iter().enumerate() {
        code.push(if place < count {
            *operation
        } else {
            Operation::Stop
        })?;
    }
    Ok(code)
}

/// The image with its first `count` instructions, and STOP in place of each other one; none where the format has no
/// such image.
fn cut(alloc: Global, image: &Image, count: usize) -> Result<Option<Image>, AllocError> {
    let code = code_up_to(alloc, image, count)?;
    let texts = texts_of(alloc, image)?;
    let numbers = Vec::from_slice(alloc, image.numbers())?;
    let first_places = first_places_of(alloc, image)?;
    let (budget, slots) = (image.budget(), image.slots());
    Ok(Image::from_code(budget, texts, numbers, slots, first_places, code).ok())
}

/// Whether an image is refused by this number.
fn is_refused_by(alloc: Global, image: Image, fault: VerifyFault) -> Result<bool, AllocError> {
    match verify(alloc, image) {
        Err((VerifyFault::NoMemory, _)) => Err(AllocError),
        Err((found, _)) => Ok(found == fault),
        Ok(_) => Ok(false),
    }
}

/// Whether the image that is cut after `count` instructions is refused by this number.
fn is_refused_so(
    alloc: Global,
    image: &Image,
    count: usize,
    fault: VerifyFault,
) -> Result<bool, AllocError> {
    match cut(alloc, image, count)? {
        Some(image) => is_refused_by(alloc, image, fault),
        None => Ok(false),
    }
}

/// The place of the first instruction with which an image breaks the rule by which it is refused. None where it breaks
/// the rule with no instruction too. Takes as long as judging the image seventeen times.
pub fn place_of_fault(
    alloc: Global,
    image: &Image,
    fault: VerifyFault,
) -> Result<Option<usize>, AllocError> {
    let mut search = Search::below(image.code().len());
    for _ in 0..usize::BITS {
        let Some(count) = search.next() else {
            break;
        };
        let is_refused = is_refused_so(alloc, image, count, fault)?;
        search.told(count, is_refused);
    }
    Ok(search.found().checked_sub(1))
}
