ghost use Rattle.std.specs.Prelude.{◌≡◌, IfOk, OnOk, length};
ghost use Rattle.model_tree.specs.Views.{body_of, statement_of};
ghost use Rattle.flat_design.specs.Reach.{Inside};
ghost use Rattle.code_deeds.specs.ModelRules.Scopes.{behind, in_unwind, locals_in_block, past};
ghost use Rattle.code_deeds.specs.CodeRules.Numbered.{AtBlock, IsBlock, IsStatement};
ghost use Rattle.laws_code.specs.HasCode.{BlockHasCode, HasCode};
ghost use Rattle.check_statements.specs.CheckNames.Places.{scope_of};
ghost use Rattle.code_deeds.specs.Homes.{IsHome, home_of};
ghost use Rattle.code_blocks.specs.Laid.{Adds, EachFrom, FromNowOn, Grows, HangsFrom, HangsOnlyFromThere, IsNested, IsNext, OnlyFrom};

use super::laid::{Laid, add, push_block};
use super::leaves::{known_exception, known_term, lay_deed, lay_local};
use check_statements::check_names_api::Place;
use code_deeds::code_terms_api::assign_code;
use code_deeds::logic_values_api::Items;
use code_deeds::{Home, action_code, operate_code};
use flat_design::{BlockId, Handler, Statement as Form, StmtId};
use model_tree::{Expression, Name, Statement};
use std::alloc::{AllocError, Global};

/// The number of an unwind block.
#[cycle(blocks)]
fn lay_undo<'a>(
    undo: &'a Vec<Statement>,
    alloc: Global,
    home: Home<'_>,
    place: &mut Place<'a>,
    laid: &mut Laid,
) -> Result<BlockId, AllocError>
    requires home { IsHome home (scope_of place.old) }
    requires coded { BlockHasCode (body_of undo.now.items) (home_of home) (in_unwind (scope_of place.old)) }
    requires nested { IsNested laid.old }
    ensures grows { OnOk result (Grows laid.old laid.new) }
    ensures nested { OnOk result (IsNested laid.new) }
    ensures owned { IfOk result (λ b. EachFrom (length laid.old.blocks) laid.new (λ a n. Inside a b n)) }
    ensures only { IfOk result (λ b. OnlyFrom (length laid.old.blocks) laid.new (λ a n. Inside a b n)) }
    ensures moves { OnOk result (scope_of place.new ≡ past (locals_in_block (body_of undo.now.items)) (scope_of place.old)) }
    ensures reads { IfOk result (λ b. FromNowOn laid.new (λ a. AtBlock a b (IsBlock (body_of undo.now.items) (home_of home.entry) a (in_unwind (scope_of place.old))))) }
{
    let around = place.unwinding;
    place.unwinding = true;
    let block = lay_block(undo, alloc, home, place, laid)?;
    place.unwinding = around;
    Ok(block)
}

/// Lays out a statement behind its blocks. Behind it the place is that behind the statement.
#[cycle(blocks)]
fn lay_statement<'a>(
    statement: &'a Statement,
    alloc: Global,
    home: Home<'_>,
    place: &mut Place<'a>,
    laid: &mut Laid,
    ids: &mut Items<StmtId>,
) -> Result<(), AllocError>
    requires home { IsHome home (scope_of place.old) }
    requires coded { HasCode (statement_of statement.now) (home_of home) (scope_of place.old) }
    requires nested { IsNested laid.old }
    requires next { IsNext laid.old ids.old }
    ensures grows { OnOk result (Grows laid.old laid.new) }
    ensures nested { OnOk result (IsNested laid.new) }
    ensures next { OnOk result (IsNext laid.new ids.new) }
    ensures owned { OnOk result (EachFrom (length laid.old.blocks) laid.new (λ a n. HangsFrom a ids.new n)) }
    ensures only { OnOk result (HangsOnlyFromThere laid.old ids.old laid.new ids.new) }
    ensures moves { OnOk result (scope_of place.new ≡ behind (statement_of statement.now) (scope_of place.old)) }
    ensures reads { OnOk result (Adds laid.new ids.old ids.new (λ a ns rest. IsStatement (statement_of statement.now) (home_of home.entry) a (scope_of place.old) ns rest)) }
{
    match statement {
        Statement::Var(_, var_type, name, value) => {
            lay_local(*var_type, name, value, alloc, place, laid, ids)
        }
        Statement::Assign(_, target, value) => {
            let deed = assign_code(alloc, place, target, value)?;
            lay_deed(laid, ids, deed)
        }
        Statement::Operate(_, name, _, operation) => {
            let deed = operate_code(alloc, place, home, name, operation)?;
            lay_deed(laid, ids, deed)
        }
        Statement::Act(_, action) => {
            let deed = action_code(alloc, place, home, action)?;
            lay_deed(laid, ids, deed)
        }
        Statement::If(_, condition, body, other) => {
            let term = known_term(alloc, place, condition)?;
            let block = lay_block(body, alloc, home, place, laid)?;
            match other {
                None => {
                    add(laid, ids, Form::If(term, block, None))?;
                    Ok(())
                }
                Some(other) => {
                    let otherwise = lay_block(other, alloc, home, place, laid)?;
                    add(laid, ids, Form::If(term, block, Some(otherwise)))?;
                    Ok(())
                }
            }
        }
        Statement::While(_, condition, body) => {
            let term = known_term(alloc, place, condition)?;
            let block = lay_block(body, alloc, home, place, laid)?;
            add(laid, ids, Form::While(term, block))?;
            Ok(())
        }
        Statement::Guard(_, body, undo) => {
            let block = lay_block(body, alloc, home, place, laid)?;
            let unwind = lay_undo(undo, alloc, home, place, laid)?;
            add(laid, ids, Form::Guard(block, unwind))?;
            Ok(())
        }
        Statement::Try(_, body, handlers) => {
            let block = lay_block(body, alloc, home, place, laid)?;
            let mut found = Items::new(alloc);
            for (name, inner) in handlers {
                let exception = known_exception(home, name.bytes())?;
                let handled = lay_block(inner, alloc, home, place, laid)?;
                found.push(Handler {
                    exception,
                    block: handled,
                })?;
            }
            add(laid, ids, Form::Try(block, found))?;
            Ok(())
        }
    }
}

/// Lays out the statements of a block that has code, and the blocks inside it, and tells the block's number: these blocks are
/// new, and no others stand inside it. Behind it the place is as before, with the local variables of the block declared before
/// it and not visible. More blocks or statements than 32 bits can count are answered as out of memory.
#[cycle(blocks)]
pub fn lay_block<'a>(
    body: &'a Vec<Statement>,
    alloc: Global,
    home: Home<'_>,
    place: &mut Place<'a>,
    laid: &mut Laid,
) -> Result<BlockId, AllocError>
    requires home { IsHome home (scope_of place.old) }
    requires coded { BlockHasCode (body_of body.now.items) (home_of home) (scope_of place.old) }
    requires nested { IsNested laid.old }
    ensures grows { OnOk result (Grows laid.old laid.new) }
    ensures nested { OnOk result (IsNested laid.new) }
    ensures owned { IfOk result (λ b. EachFrom (length laid.old.blocks) laid.new (λ a n. Inside a b n)) }
    ensures only { IfOk result (λ b. OnlyFrom (length laid.old.blocks) laid.new (λ a n. Inside a b n)) }
    ensures moves { OnOk result (scope_of place.new ≡ past (locals_in_block (body_of body.now.items)) (scope_of place.old)) }
    ensures reads { IfOk result (λ b. FromNowOn laid.new (λ a. AtBlock a b (IsBlock (body_of body.now.items) (home_of home.entry) a (scope_of place.old)))) }
{
    let mark = place.mark();
    let mut ids = Items::new(alloc);
    for statement in body {
        lay_statement(statement, alloc, home, place, laid, &mut ids)?;
    }
    place.leave(mark);
    push_block(laid, ids)
}
