ghost use Rattle.std.specs.Prelude.{◌≡◌, ℕ, ◌^◌, ◌<◌, List, length, IfOk, IfErr, MatchResult};
ghost use Rattle.model_tree.specs.Tree as tree;
ghost use Rattle.model_tree.specs.WholeTree.{source_of};
ghost use Rattle.parse_statements.specs.ModelLexer.Reads.{Reads};
ghost use Rattle.model_parser.specs.Parse as spec;

use super::modules::source;
use model_tree::{Head, Module, ParseStop, Top, Tree};
use parse_statements::model_lexer_api::tokens_in_language;
use parse_statements::parse_expressions_api::Cursor;
use std::alloc::Global;

/// The line as a fault tells it: one past the greatest number is told as the greatest.
fn told_line(line: u64) -> u32 {
    u32::try_from(line).unwrap_or(u32::MAX)
}

/// One more than the number of the text's line ends.
fn last_line(text: &[u8]) -> u32 {
    let ends = text.iter().filter(|byte| **byte == b'\n').count();
    told_line((ends as u64).saturating_add(1))
}

/// The parts of the tree that the text reads as.
#[tactic(auto, unfolding(crate::specs::Parse::from_tokens))]
fn read(alloc: Global, text: &[u8]) -> Result<(Head, Vec<Module>, Top), ParseStop>
    requires { length text.now < 2 ^ 32 }
    ensures found { IfOk result (λ parts. spec.IsFound text.now (spec.source_of_parts parts)) }
    ensures stopped { IfErr result (λ e. spec.IsStopped text.now e) }
{
    let found = tokens_in_language(alloc, text)?;
    let mut cursor = Cursor::new(found.as_slice(), last_line(text));
    let parts = source(alloc, &mut cursor)?;
    cursor.end()?;
    Ok(parts)
}

/// The tree that the text reads as. Syntax exactly where it reads as none. The line is that of the first
/// piece that is no token; or else of the token at which reading stops: one that no tree goes on with, a bracket past
/// the 64th, or a token past the 256th of an expression; or else, where the text ends too early, one more than the
/// number of its line ends. The text is shorter than 2^32 bytes.
pub fn parse(alloc: Global, text: &[u8]) -> Result<Tree, ParseStop>
    requires { length text.now < 2 ^ 32 }
    ensures found { IfOk result (λ t. Reads text.now (source_of t)) }
    ensures only { (x : tree.Source) → Reads text.now x → MatchResult result (λ t. source_of t ≡ x) (λ e. e ≡ ParseStop.NoMemory) }
{
    let (head, modules, top) = read(alloc, text)?;
    Ok(Tree { head, modules, top })
}

/// No text reads as two trees.
pub fn one_tree()
    ensures { (text : List ℕ) (x y : tree.Source) → Reads text x → Reads text y → x ≡ y }
{}
