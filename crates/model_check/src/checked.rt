ghost use Rattle.std.specs.Prelude.{◌≡◌, IfErr, IfOk, None, OnOk, Some};
ghost use Rattle.model_tree.specs.WholeTree.{model_of, source_of};
ghost use Rattle.model_tree.specs.Stops.{IfRefused};
ghost use Rattle.code_rules.specs.ModelRules.Passes.{first_fault};
ghost use Rattle.code_rules.specs.Bodies.{IsCodeOf};
ghost use Rattle.flat_design.specs.Code.{arena_of};
ghost use Rattle.code_blocks.specs.LawsCode.HasCode.{ModelHasCode};
ghost use Rattle.code_rules.specs.Rooms.{HasRooms};
ghost use Rattle.tick_rules.specs.Sources.{source_fault, ticked};
ghost use Rattle.model_check.specs.Parts.{AllStand, IsNestedCode};
ghost use Rattle.code_blocks.specs.LawsCode.OwnBlocks.{HaveOwnBlocks};

use crate::{code_of, judge_source};
use code_blocks::laws_code_api::models_have_code;
use code_rules::{blocks_stay, bodies_stay, code_stays, raise_rooms};
use flat_design::Code;
use model_tree::{CheckStop, Tree};
use std::alloc::{AllocError, Global};

/// The tree of ticks of a tree that breaks no rule, and its code: both as [`check`] made them.
#[derive(Drop)]
pub struct Checked {
    /// The tree of ticks.
    pub tree: Tree,
    /// The code: a body for each function, process and clock of each module, in text order.
    pub code: Code,
    pub ghost accepted: { first_fault (model_of tree) ≡ None },
    pub ghost nested: { IsNestedCode code },
    pub ghost apart: { HaveOwnBlocks code },
}

/// The code of a tree whose parts have code, with the rooms of its bodies.
fn roomy_code(alloc: Global, tree: &Tree) -> Result<Code, AllocError>
    requires { ModelHasCode (model_of tree.now) }
    ensures reads_back { IfOk result (λ code. IsCodeOf (model_of tree.now) code) }
    ensures nested { IfOk result (λ code. IsNestedCode code) }
    ensures apart { IfOk result (λ code. HaveOwnBlocks code) }
    ensures stand { IfOk result (λ code. AllStand code) }
    ensures rooms { IfOk result (λ code. HasRooms (arena_of code)) }
{
    let code = code_of(alloc, tree)?;
    code_stays();
    bodies_stay();
    blocks_stay();
    let raised = raise_rooms(alloc, code)?;
    Ok(raised)
}

/// The code of a tree that breaks no rule.
fn sound_code(alloc: Global, tree: &Tree) -> Result<Code, AllocError>
    requires { first_fault (model_of tree.now) ≡ None }
    ensures reads_back { IfOk result (λ code. IsCodeOf (model_of tree.now) code) }
    ensures nested { IfOk result (λ code. IsNestedCode code) }
    ensures apart { IfOk result (λ code. HaveOwnBlocks code) }
    ensures stand { IfOk result (λ code. AllStand code) }
    ensures rooms { IfOk result (λ code. HasRooms (arena_of code)) }
{
    models_have_code();
    roomy_code(alloc, tree)
}

/// Judges a tree, of either language, by its resolution and by all rules on its modules, and makes the code of one that breaks none:
/// that of the tree of ticks, which stands in its place from here.
///
/// # Errors
/// Refused has the first broken rule: the resolution; else that of the first pass that has one (double names; the rules on single
/// constructs; the rules on what is reached), there at the first construct in text order, and there the lowest kind. Out of memory is
/// also answered for more locals in one body, and for more blocks, statements or bodies, than 32 bits count.
pub fn check(alloc: Global, tree: Tree) -> Result<Checked, CheckStop>
    ensures tree { IfOk result (λ checked. model_of checked.tree ≡ ticked (source_of tree)) }
    ensures head { IfOk result (λ checked. checked.tree.head ≡ tree.head) }
    ensures accepted { OnOk result (source_fault (source_of tree) ≡ None) }
    ensures reads_back { IfOk result (λ checked. IsCodeOf (model_of checked.tree) checked.code) }
    ensures stand { IfOk result (λ checked. AllStand checked.code) }
    ensures rooms { IfOk result (λ checked. HasRooms (arena_of checked.code)) }
    ensures refused { IfErr result (λ stop. IfRefused stop (λ fault. source_fault (source_of tree) ≡ Some fault)) }
{
    let judged = judge_source(alloc, tree)?;
    match sound_code(alloc, &judged) {
        Ok(code) => Ok(Checked { tree: judged, code }),
        Err(_) => Err(CheckStop::NoMemory),
    }
}
