ghost use Rattle.std.specs.Prelude.{◌≡◌, IfErr, IfOk, None, OnOk, Some, true};
ghost use Rattle.model_tree.specs.Limits.{is_sound};
ghost use Rattle.model_tree.specs.WholeTree.{model_of};
ghost use Rattle.model_tree.specs.Stops.{IfRefused};
ghost use Rattle.flat_design.specs.Code.{arena_of};
ghost use Rattle.flat_design.specs.Sound.{SoundDesign};
ghost use Rattle.model_check.specs.CodeRules.Bodies.{IsCodeOf};
ghost use Rattle.model_check.specs.CodeRules.Rooms.{HasRooms};
ghost use Rattle.model_check.specs.Parts.{AllStand};
ghost use Rattle.model_check.specs.LawsCode.OwnBlocks.{HaveOwnBlocks};
ghost use Rattle.model_check.specs.TickRules.Sources as sources;
ghost use Rattle.binding.specs.DesignRules.Designs.{IsDesignOf};
ghost use Rattle.elaborate.specs.Elaborated.{elaboration_fault};

use crate::elaborate;
use flat_design::Design;
use laws_design::accepted_designs_are_sound;
use model_check::Checked;
use model_check::tick_rules_api::resolution_of;
use model_tree::CheckStop;
use std::alloc::Global;

/// The flat design of a checked tree within the limits of a text, whose code is as [`model_check::check`] makes it: no block of it
/// stands inside two bodies. It is sound, and its resolution is that of the text.
///
/// # Errors
/// Refused is exactly the first fault of the whole: a module that has itself among its instances, at any depth
/// (ModuleCycle); else too many objects or bytes of memories (TooManyObjects); else the first fault of a binding
/// (KindDiffers), and else that of a port, an export or a socket (DoubleBound, TooMany, Unbound). Out of memory is also answered
/// where a number of the design does not fit 32 bits.
pub fn sound_design(alloc: Global, checked: Checked) -> Result<Design, CheckStop>
    requires limits { is_sound (model_of checked.tree) ≡ true }
    requires reads_back { IsCodeOf (model_of checked.tree) checked.code }
    requires stand { AllStand checked.code }
    requires rooms { HasRooms (arena_of checked.code) }
    ensures accepted { OnOk result (elaboration_fault (model_of checked.tree) ≡ None) }
    ensures design { IfOk result (λ design. IsDesignOf (model_of checked.tree) design) }
    ensures code { IfOk result (λ design. design.code ≡ checked.code) }
    ensures apart { IfOk result (λ design. HaveOwnBlocks design.code) }
    ensures resolution { IfOk result (λ design. design.resolution.power ≡ (sources.resolution_of checked.tree.head).power) }
    ensures sound { IfOk result (λ design. SoundDesign design) }
    ensures refused { IfErr result (λ stop. IfRefused stop (λ fault. elaboration_fault (model_of checked.tree) ≡ Some fault)) }
{
    accepted_designs_are_sound();
    let Checked { tree, code } = checked;
    let resolution = resolution_of(tree.head);
    let design = elaborate(alloc, &tree, code)?;
    Ok(Design {
        resolution,
        ..design
    })
}
