//! Tests of what libraries answer, by values from outside: dates and fields of RFCs, and what `sha256sum`, `date` and Python's
//! `email` say of the same octets. A crate with tests is proved twice, so these libraries have none of their own.
#![tactic(auto)]

#[cfg(test)]
mod charsets;
#[cfg(test)]
mod dates;
#[cfg(test)]
mod fields;
#[cfg(test)]
mod folders;
#[cfg(test)]
mod headers;
#[cfg(test)]
mod intakes;
#[cfg(test)]
mod judging;
#[cfg(test)]
mod lines;
#[cfg(test)]
mod rules;
#[cfg(test)]
mod volumes;
