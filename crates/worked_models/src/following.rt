//! A method follows a signal, and another one follows that one.
#![tactic(auto, unfolding(worked_runs::specs::Run::told, worked_runs::specs::Run::told_under))]

ghost use Rattle.std.specs.Prelude.{◌≡◌, [], ◌∷◌, codes, Some, true};
ghost use Rattle.model_lexer.specs.LogicValues.declared.kinds.Value.TheVariants as value;
ghost use Rattle.model_lexer.specs.ModelTree.declared.items.Head.TheVariants as head;
ghost use Rattle.model_lexer.specs.Reads.{Reads};
ghost use Rattle.design_rules.specs.Designs.{IsDesignOf};
ghost use Rattle.worked_models.specs.Following.{text, model, follows};
ghost use Rattle.worked_runs.specs.Run.{told, run, set};

/// The text reads as the tree, the design is the flat design of the tree, and its code reads back as the bodies of the tree.
#[tactic(auto, using(crate::proofs::SameDesign::same, crate::proofs::ReadingDesigns::reads))]
pub fn the_design_is_that_of_its_text()
    ensures reads { Reads text (record { head = head.First; model = model }) }
    ensures design { IsDesignOf model follows }
{}

/// The first method writes where its signal is 1, and the second one tells what was written after the update.
pub fn the_design_runs()
    ensures runs { told 16 (0 ∷ 1 ∷ []) follows (set 0 (value.Bool true) ∷ run ∷ []) ≡ Some (codes "0 m.s b 0\n0 m.w w 1\nfinal m.a 1\nfinal m.b 1\nend done 0\n") }
{}
