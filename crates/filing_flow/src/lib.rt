//! Code in blocks: the form between a script and the places of an image.
//!
//! This crate has no code. `specs/Structure` defines code in blocks: a jump names a block around it by its number and
//! goes to the end of that block, so that it needs no place and goes forward. `specs/Code` defines the operations that
//! encode the code, `specs/Effect` what it does, and `specs/Types` what it finds and leaves on the stack. `specs/Whole`
//! defines the programs of one such code, and `specs/Procedures` those of several, each a procedure that calls only those
//! after it. `specs/Compiled` says when a program is the image of a script.
//!
//! `laws` states what is proved of all such code at once. The program runs on the table machine as the code runs in
//! blocks, and the verifier finds nothing to refuse in a program of sound and typed code. So for a compiler that writes
//! such code only the effect, the type and the steps of calls are left to be proved.
#![tactic(auto)]

mod laws;

pub use laws::{
    a_program_runs_as_its_code, a_program_runs_as_its_procedures, typed_code_is_well,
    typed_procedures_are_well,
};
