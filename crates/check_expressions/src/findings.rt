ghost use Rattle.std.specs.Prelude.{◌≡◌};
ghost use Rattle.std.specs.Option.{option_or};
ghost use Rattle.check_expressions.specs.Findings as spec;
ghost use Rattle.check_expressions.specs.Findings.{faults_of};

use model_tree::Kind;

/// A broken rule, with a name that stands in the tree.
#[derive(Clone, Copy)]
pub struct Finding<'a> {
    /// Which rule.
    pub kind: Kind,
    /// The line of the construct that breaks it, counted from 1.
    pub line: u32,
    /// The name concerned.
    pub name: &'a [u8],
}

/// The finding of a rule, where it is broken.
pub fn told_if<'a>(is_broken: bool, kind: Kind, line: u32, name: &'a [u8]) -> Option<Finding<'a>>
    ensures { faults_of result ≡ spec.told_if kind line name.now is_broken }
{
    if is_broken {
        Some(Finding { kind, line, name })
    } else {
        None
    }
}

/// The first of two findings.
pub fn first_finding<'a>(
    before: Option<Finding<'a>>,
    behind: Option<Finding<'a>>,
) -> Option<Finding<'a>>
    ensures { faults_of result ≡ option_or (faults_of before.entry) (faults_of behind.entry) }
{
    match before {
        Some(finding) => Some(finding),
        None => behind,
    }
}
