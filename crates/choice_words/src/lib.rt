//! The words of a command line by which records are chosen.
//!
//! - `numbers`: the numbers of records that a word is;
//! - `volumes`: the same in an archive of volumes, with the number of the volume;
//! - `readings`: which words read as numbers;
//! - `ranges`: numbers as few words;
//! - `choice`: what is typed of a choice in one archive;
//! - `typed`: what is typed of a choice before it is known whether the archive has volumes.
//!
//! In `specs/`, `Numbers` and `Volumes` say which words are numbers, `Readings` which read as these, `Ranges` which numbers words stand
//! for, `Choices` when nothing is typed, and `Typed` what is typed of one volume.
#![tactic(auto)]

mod choice;
mod numbers;
mod ranges;
mod readings;
mod typed;
mod volumes;

pub use choice::Choice;
pub use numbers::{TypedNumbers, read_numbers, read_record_number, reversed_range};
pub use ranges::add_number;
pub use readings::{reads_as_any_numbers, reads_as_numbers};
pub use typed::{TypedChoice, above_in, is_named_or_none, numbers_for};
pub use volumes::{
    VolumeNumber, VolumeNumbers, read_volume_number, read_volume_numbers, reversed_volume_range,
};
