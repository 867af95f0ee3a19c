ghost use Rattle.model_tree.specs.Views.{item_of};
ghost use Rattle.parse_statements.specs.ParseExpressions.Parse.{Parses};
ghost use Rattle.model_parser.specs.ItemParse as spec;

use model_tree::{End, InitiatorRole, Item, Name, ParseStop, Symbol, TargetRole, Word};
use parse_statements::parse_actions_api::optional_member;
use parse_statements::parse_expressions_api::Cursor;
use std::alloc::Global;

/// The name of a handler, if its word comes.
#[tactic(auto, unfolding(crate::specs::ItemParse::optional_handler))]
fn optional_handler(
    alloc: Global,
    tokens: &mut Cursor<'_>,
    word: Word,
) -> Result<Option<Name>, ParseStop>
    ensures { Parses (λ x. x) (spec.optional_handler word) tokens.old result tokens.new }
{
    if tokens.sees_word(word) {
        let _line = tokens.word(word)?;
        let name = tokens.name(alloc)?;
        return Ok(Some(name));
    }
    Ok(None)
}

/// What an initiator socket does with calls of the backward path.
#[tactic(auto, unfolding(crate::specs::ItemParse::initiator_role))]
fn initiator_role(alloc: Global, tokens: &mut Cursor<'_>) -> Result<InitiatorRole, ParseStop>
    ensures { Parses (λ r. r) spec.initiator_role tokens.old result tokens.new }
{
    if tokens.sees_word(Word::Pass) {
        let _line = tokens.word(Word::Pass)?;
        return Ok(InitiatorRole::Pass);
    }
    let backward = optional_handler(alloc, tokens, Word::Bw)?;
    Ok(InitiatorRole::Own(backward))
}

/// An initiator socket.
#[tactic(auto, unfolding(crate::specs::ItemParse::initiator_item))]
pub fn initiator_item(alloc: Global, tokens: &mut Cursor<'_>) -> Result<Item, ParseStop>
    ensures { Parses item_of spec.initiator_item tokens.old result tokens.new }
{
    let line = tokens.word(Word::Initiator)?;
    let name = tokens.name(alloc)?;
    let role = initiator_role(alloc, tokens)?;
    let _end = tokens.symbol(Symbol::Semicolon)?;
    Ok(Item::Initiator(line, name, role))
}

/// What a target socket does with blocking calls and with those of the forward path.
#[tactic(auto, unfolding(crate::specs::ItemParse::target_role))]
fn target_role(alloc: Global, tokens: &mut Cursor<'_>) -> Result<TargetRole, ParseStop>
    ensures { Parses (λ r. r) spec.target_role tokens.old result tokens.new }
{
    if tokens.sees_word(Word::Pass) {
        let _line = tokens.word(Word::Pass)?;
        return Ok(TargetRole::Pass);
    }
    let blocking = optional_handler(alloc, tokens, Word::Bt)?;
    let forward = optional_handler(alloc, tokens, Word::Fw)?;
    Ok(TargetRole::Own(blocking, forward))
}

/// A target socket.
#[tactic(auto, unfolding(crate::specs::ItemParse::target_item))]
pub fn target_item(alloc: Global, tokens: &mut Cursor<'_>) -> Result<Item, ParseStop>
    ensures { Parses item_of spec.target_item tokens.old result tokens.new }
{
    let line = tokens.word(Word::Target)?;
    let name = tokens.name(alloc)?;
    let role = target_role(alloc, tokens)?;
    let _end = tokens.symbol(Symbol::Semicolon)?;
    Ok(Item::Target(line, name, role))
}

/// An instance of a module.
#[tactic(auto, unfolding(crate::specs::ItemParse::instance_item))]
pub fn instance_item(alloc: Global, tokens: &mut Cursor<'_>) -> Result<Item, ParseStop>
    ensures { Parses item_of spec.instance_item tokens.old result tokens.new }
{
    let line = tokens.word(Word::Inst)?;
    let module = tokens.name(alloc)?;
    let name = tokens.name(alloc)?;
    let _end = tokens.symbol(Symbol::Semicolon)?;
    Ok(Item::Instance(line, module, name))
}

/// One end of a binding.
#[tactic(auto, unfolding(crate::specs::ItemParse::binding_end))]
fn binding_end(alloc: Global, tokens: &mut Cursor<'_>) -> Result<End, ParseStop>
    ensures { Parses (λ e. e) spec.binding_end tokens.old result tokens.new }
{
    let (line, name) = tokens.named(alloc)?;
    let member = optional_member(alloc, tokens)?;
    Ok(End { line, name, member })
}

/// A binding.
#[tactic(auto, unfolding(crate::specs::ItemParse::bind_item))]
pub fn bind_item(alloc: Global, tokens: &mut Cursor<'_>) -> Result<Item, ParseStop>
    ensures { Parses item_of spec.bind_item tokens.old result tokens.new }
{
    let line = tokens.word(Word::Bind)?;
    let left = binding_end(alloc, tokens)?;
    let _to = tokens.word(Word::To)?;
    let right = binding_end(alloc, tokens)?;
    let _end = tokens.symbol(Symbol::Semicolon)?;
    Ok(Item::Bind(line, left, right))
}
