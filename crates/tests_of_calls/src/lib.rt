//! Tests of the outside: of its forms over real files and streams, in memory and silent, and of what is told of a case
//! that came out otherwise than it says.
//!
//! Tests of parts that hold values of any type, each at one type, of wait lists, a queue by time and a map against plain lists, and of
//! what no clause says: a deep design's trace takes no deep stack.
#![tactic(auto)]

#[cfg(test)]
mod draws;
#[cfg(test)]
mod files;
#[cfg(test)]
mod maps;
#[cfg(test)]
mod queues;
#[cfg(test)]
mod silence;
#[cfg(test)]
mod slots;
#[cfg(test)]
mod telling;
#[cfg(test)]
mod traces;
#[cfg(test)]
mod waits;
