//! What came of a run, and what is wanted of it, fact by fact.

use super::quoting::push_quoted;
use std::alloc::{AllocError, Global};

/// What a fact says.
#[derive(Drop)]
pub enum Value {
    /// Words, as `as before`.
    Words(String),
    /// The bytes that a sink took, or that a file holds.
    Bytes(Vec<u8>),
}

/// One thing that came of a run, or is wanted of it.
#[derive(Drop)]
pub struct Fact {
    /// What it is about, as `status`, `out` or `holds c.vcd`.
    pub subject: String,
    /// What it says of that.
    pub value: Value,
}

impl Fact {
    /// A fact that is told in words.
    pub fn in_words(alloc: Global, subject: &str, words: String) -> Result<Fact, AllocError> {
        Ok(Fact {
            subject: String::from_str(alloc, subject)?,
            value: Value::Words(words),
        })
    }

    /// That a file holds these bytes.
    pub fn of_file(alloc: Global, name: &str, bytes: Vec<u8>) -> Result<Fact, AllocError> {
        Ok(Fact {
            subject: format!(in alloc; "holds {name}")?,
            value: Value::Bytes(bytes),
        })
    }

    /// A fact that is told by bytes.
    pub fn in_bytes(alloc: Global, subject: &str, bytes: Vec<u8>) -> Result<Fact, AllocError> {
        Ok(Fact {
            subject: String::from_str(alloc, subject)?,
            value: Value::Bytes(bytes),
        })
    }
}

fn is_same(one: &Fact, other: &Fact) -> bool {
    if one.subject.as_str() != other.subject.as_str() {
        return false;
    }
    match (&one.value, &other.value) {
        (Value::Words(first), Value::Words(second)) => first.as_str() == second.as_str(),
        (Value::Bytes(first), Value::Bytes(second)) => first.as_slice() == second.as_slice(),
        _ => false,
    }
}

/// Whether a fact is one of these.
pub fn has(facts: &[Fact], wanted: &Fact) -> bool {
    for fact in facts {
        if is_same(fact, wanted) {
            return true;
        }
    }
    false
}

/// Appends a fact in the form that a file of cases has.
pub fn push_fact(shown: &mut String, fact: &Fact) -> Result<(), AllocError> {
    let subject = fact.subject.as_str();
    write!(shown, "    {subject} ")?;
    match &fact.value {
        Value::Words(words) => shown.push_str(words.as_str())?,
        Value::Bytes(bytes) => push_quoted(shown, bytes.as_slice())?,
    }
    shown.push('\n')
}
