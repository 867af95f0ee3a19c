ghost use Rattle.parse_statements.specs.ParseExpressions.Parse.{Parses};
ghost use Rattle.model_parser.specs.Parse as spec;

use super::values::time_span;
use model_tree::{Head, ParseStop, ResolutionLine, Symbol, Word};
use parse_statements::parse_expressions_api::Cursor;

/// The resolution that a text asks for, if one is written.
#[tactic(auto, unfolding(crate::specs::Parse::resolution))]
fn resolution(tokens: &mut Cursor<'_>) -> Result<Option<ResolutionLine>, ParseStop>
    ensures { Parses (λ found. found) spec.resolution tokens.old result tokens.new }
{
    if tokens.sees_word(Word::Resolution) {
        let line = tokens.word(Word::Resolution)?;
        let span = time_span(tokens)?;
        let _end = tokens.symbol(Symbol::Semicolon)?;
        return Ok(Some(ResolutionLine { line, span }));
    }
    Ok(None)
}

/// What a text says of its language.
#[tactic(auto, unfolding(crate::specs::Parse::head_text))]
pub fn head(tokens: &mut Cursor<'_>) -> Result<Head, ParseStop>
    ensures { Parses (λ found. found) spec.head_text tokens.old result tokens.new }
{
    if tokens.sees_word(Word::Language) {
        let _word = tokens.word(Word::Language)?;
        let _version = tokens.this_number(2)?;
        let _end = tokens.symbol(Symbol::Semicolon)?;
        return Ok(Head::Second(resolution(tokens)?));
    }
    Ok(Head::First)
}
