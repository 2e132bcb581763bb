//! Tests of the store over databases in memory: what no clause says, and no session over a file shows. These are databases
//! of version 1 and of no archive, tables of other names before and between ours, messages, and lists of records. A test
//! is data (`archives`, `no_archives`): texts of SQL, and calls of a store with their answers.
#![tactic(auto)]

#[cfg(test)]
mod answers;
#[cfg(test)]
mod archives;
#[cfg(test)]
mod histories;
#[cfg(test)]
mod no_archives;
#[cfg(test)]
mod stages;
#[cfg(test)]
mod texts;
