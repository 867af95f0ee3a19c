//! What is told of a case that came out otherwise than it says.

use case_files::{Case, Counts, Outcome, difference, outside_of, read_cases};
use logic_values::Items;
use sim_io::{Shelf, write_all, write_file};
use std::alloc::Global;
use std::test::Fail;

/// Cases of one run: the first says what comes of it, the second another line, and no number of steps; and two of a range, of which the
/// first says one byte too few.
const CASES: &str = r#"
case it says what comes
  model "module M { } top M m;"
  script "run"
  gives
    status 0
    steps 5
    choices 3 1
    out "end done "
        "0\n"
    err ""
    file m.tlm as before
    file s.txt changed
    holds s.txt "x\n"

case it says something else
  model "module M { } top M m;"
  script "run"
  gives
    status 0
    choices 3 1
    out "final m.a 0\n"
        "end done 0\n"
    err ""
    file m.tlm as before
    file s.txt changed
    holds s.txt "y\n"

each 10 11 it says a front of what comes
  words
  gives
    status 0
    steps 5
    choices 3 1
    out first N "end done 0\n"
    err ""
"#;

/// What is told of the second, and of the first of the range.
const DIFFERENCE: &str = r#"WRONG it says something else
  wanted
    out "final m.a 0\n"
        "end done 0\n"
    holds s.txt "y\n"
  came
    steps 5
    out "end done 0\n"
    holds s.txt "x\n"
WRONG it says a front of what comes, N = 10
  wanted
    out "end done 0"
  came
    out "end done 0\n"
"#;

/// What the first of them says, as a run answers it.
fn outcome_of(alloc: Global, case: &Case) -> Result<Outcome, Fail> {
    let mut outside = outside_of(alloc, case)?;
    write_all(&mut outside.out, b"end done 0\n")?;
    let script = outside.shelf.create("s.txt")?;
    write_file(&mut outside.shelf, script, b"x\n")?;
    let mut choices = Items::new(alloc);
    choices.push(3)?;
    choices.push(1)?;
    Ok(Outcome {
        status: 0,
        steps: 5,
        choices,
        outside,
    })
}

// A case that says something else than what comes is told.
#[test]
fn wrong_cases_are_told(rt: HostRuntime) -> Result<(), Fail> {
    let cases = read_cases(rt.alloc(), CASES)?;
    let mut told = String::new(rt.alloc());
    let mut counts = Counts::new();
    for case in &cases {
        let outcome = outcome_of(rt.alloc(), case)?;
        let shown = difference(rt.alloc(), case, &outcome)?;
        counts.add(shown.is_none());
        if let Some(shown) = shown {
            told.push_str(shown.as_str())?;
        }
    }
    assert_eq!(rt; told.as_str(), DIFFERENCE);
    assert!(rt; counts.right == 2 && counts.wrong == 2);
    Ok(())
}
