ghost use Rattle.std.specs.Prelude.{IsTrue};
ghost use Rattle.model_tree.specs.Languages.{keeps_language};
ghost use Rattle.model_tree.specs.Limits.{fits_head, is_sound};
ghost use Rattle.model_tree.specs.Views.{modules_of};

use super::items::{Head, Module, Top};

/// The tree of a model's text. It keeps the limits and the levels of the language, and the words and units of its version, so
/// that some text reads as it but for line numbers.
#[derive(Drop)]
pub struct Tree {
    /// What the text says of its language.
    pub head: Head,
    /// The modules in text order.
    pub modules: Vec<Module>,
    /// The instance at the top.
    pub top: Top,
    pub ghost sound: { IsTrue (is_sound (record { modules = modules_of modules.items; top = top })) },
    pub ghost limits: { IsTrue (fits_head head) },
    pub ghost language: { IsTrue (keeps_language head (record { modules = modules_of modules.items; top = top })) },
}
