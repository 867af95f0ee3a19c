ghost use Rattle.parse_actions.specs.ChannelParse as spec;
ghost use Rattle.parse_expressions.specs.Parse.{Parses};

use model_tree::{ParseStop, SignalType, Symbol, TypeForm, VarType, Word};
use parse_expressions::Cursor;

/// A width between angle brackets.
#[tactic(auto, unfolding(crate::specs::ChannelParse::width))]
fn width(tokens: &mut Cursor<'_>) -> Result<u64, ParseStop>
    ensures { Parses (λ width. width) spec.width tokens.old result tokens.new }
{
    let _less = tokens.symbol(Symbol::Less)?;
    let width = tokens.number()?;
    let _greater = tokens.symbol(Symbol::Greater)?;
    Ok(width)
}

/// A type of signals that is this word.
#[tactic(auto, unfolding(crate::specs::ChannelParse::plain_type))]
fn plain_type(tokens: &mut Cursor<'_>, word: Word, form: TypeForm) -> Result<SignalType, ParseStop>
    ensures { Parses (λ found. found) (spec.plain_type word form) tokens.old result tokens.new }
{
    let line = tokens.word(word)?;
    Ok(SignalType { line, form })
}

/// `int<W>`
#[tactic(auto, unfolding(crate::specs::ChannelParse::int_type))]
fn int_type(tokens: &mut Cursor<'_>) -> Result<SignalType, ParseStop>
    ensures { Parses (λ found. found) spec.int_type tokens.old result tokens.new }
{
    let line = tokens.word(Word::Int)?;
    let width = width(tokens)?;
    Ok(SignalType {
        line,
        form: TypeForm::Int(width),
    })
}

/// `uint<W>`
#[tactic(auto, unfolding(crate::specs::ChannelParse::uint_type))]
fn uint_type(tokens: &mut Cursor<'_>) -> Result<SignalType, ParseStop>
    ensures { Parses (λ found. found) spec.uint_type tokens.old result tokens.new }
{
    let line = tokens.word(Word::Uint)?;
    let width = width(tokens)?;
    Ok(SignalType {
        line,
        form: TypeForm::Uint(width),
    })
}

/// `lv<W>`
#[tactic(auto, unfolding(crate::specs::ChannelParse::vector_type))]
fn vector_type(tokens: &mut Cursor<'_>) -> Result<SignalType, ParseStop>
    ensures { Parses (λ found. found) spec.vector_type tokens.old result tokens.new }
{
    let line = tokens.word(Word::Lv)?;
    let width = width(tokens)?;
    Ok(SignalType {
        line,
        form: TypeForm::Vector(width),
    })
}

/// Reads a type of signals, with the line of its first token.
#[tactic(auto, unfolding(crate::specs::ChannelParse::signal_type))]
pub fn signal_type(tokens: &mut Cursor<'_>) -> Result<SignalType, ParseStop>
    ensures { Parses (λ found. found) spec.signal_type tokens.old result tokens.new }
{
    if tokens.sees_word(Word::Bool) {
        return plain_type(tokens, Word::Bool, TypeForm::Bool);
    }
    if tokens.sees_word(Word::Logic) {
        return plain_type(tokens, Word::Logic, TypeForm::Logic);
    }
    if tokens.sees_word(Word::Int) {
        return int_type(tokens);
    }
    if tokens.sees_word(Word::Uint) {
        return uint_type(tokens);
    }
    vector_type(tokens)
}

/// A type of variables that is this word.
#[tactic(auto, unfolding(crate::specs::ChannelParse::type_word))]
fn type_word(tokens: &mut Cursor<'_>, word: Word, of: VarType) -> Result<(u32, VarType), ParseStop>
    ensures { Parses (λ found. found) (spec.type_word word of) tokens.old result tokens.new }
{
    let line = tokens.word(word)?;
    Ok((line, of))
}

/// A type of variables that signals may have too.
#[tactic(auto, unfolding(crate::specs::ChannelParse::plain_variable_type))]
fn plain_variable_type(tokens: &mut Cursor<'_>) -> Result<(u32, VarType), ParseStop>
    ensures { Parses (λ found. found) spec.plain_variable_type tokens.old result tokens.new }
{
    let found = signal_type(tokens)?;
    Ok((found.line, VarType::Plain(found)))
}

/// Reads a type of variables. The answer has the line of its first token.
#[tactic(auto, unfolding(crate::specs::ChannelParse::variable_type))]
pub fn variable_type(tokens: &mut Cursor<'_>) -> Result<(u32, VarType), ParseStop>
    ensures { Parses (λ found. found) spec.variable_type tokens.old result tokens.new }
{
    if tokens.sees_word(Word::Time) {
        return type_word(tokens, Word::Time, VarType::Time);
    }
    if tokens.sees_word(Word::Process) {
        return type_word(tokens, Word::Process, VarType::Process);
    }
    if tokens.sees_word(Word::Payload) {
        return type_word(tokens, Word::Payload, VarType::Payload);
    }
    plain_variable_type(tokens)
}
