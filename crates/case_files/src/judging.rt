//! Whether what came of a case is what it says.

use super::cases::Case;
use super::facts::{Fact, has, push_fact};
use super::outcomes::{Outcome, facts_of};
use std::alloc::{AllocError, Global};
use std::fmt;

/// How many cases came out how.
#[derive(Clone, Copy)]
pub struct Counts {
    /// The cases of which just that came which they say.
    pub right: u64,
    /// The others.
    pub wrong: u64,
}

impl Counts {
    /// No cases.
    pub fn new() -> Counts {
        Counts { right: 0, wrong: 0 }
    }

    /// Counts a case.
    pub fn add(&mut self, is_right: bool) {
        let count = if is_right {
            &mut self.right
        } else {
            &mut self.wrong
        };
        *count = count.saturating_add(1);
    }

    /// Counts the cases of another count too.
    pub fn add_all(&mut self, more: Counts) {
        self.right = self.right.saturating_add(more.right);
        self.wrong = self.wrong.saturating_add(more.wrong);
    }
}

impl fmt::Display for Counts {
    fn fmt<W: fmt::Write>(&self, f: &mut fmt::Formatter<W>) -> fmt::Result {
        let Counts { right, wrong } = self;
        write!(f, "{right} right, {wrong} WRONG")
    }
}

/// Whether each of these facts is one of the others.
fn has_all(others: &[Fact], facts: &[Fact]) -> bool {
    for fact in facts {
        if !has(others, fact) {
            return false;
        }
    }
    true
}

/// Appends those of the facts that are none of the others, below a line that says what they are.
fn push_lacking(
    shown: &mut String,
    title: &str,
    facts: &[Fact],
    others: &[Fact],
) -> Result<(), AllocError> {
    writeln!(shown, "  {title}")?;
    for fact in facts {
        if !has(others, fact) {
            push_fact(shown, fact)?;
        }
    }
    Ok(())
}

/// Tells what of a case did not come and what came in its place, or none where just that came which it says.
pub fn difference(
    alloc: Global,
    case: &Case,
    outcome: &Outcome,
) -> Result<Option<String>, AllocError> {
    let came = facts_of(alloc, case, outcome)?;
    let (came, wanted) = (came.as_slice(), case.wanted.as_slice());
    if has_all(came, wanted) && has_all(wanted, came) {
        return Ok(None);
    }
    let mut shown = String::new(alloc);
    let name = case.name.as_str();
    writeln!(shown, "WRONG {name}")?;
    push_lacking(&mut shown, "wanted", wanted, came)?;
    push_lacking(&mut shown, "came", came, wanted)?;
    Ok(Some(shown))
}
