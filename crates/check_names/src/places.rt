ghost use Rattle.std.specs.Prelude.{◌≡◌, OnOk, OnErr, length, option_map};
ghost use Rattle.std.specs.Option.{option_copied};
ghost use Rattle.model_rules.specs.ModelTree.Views.{function_of};
ghost use Rattle.model_rules.specs.Scopes.{meaning_of, function_named, with_local, is_known};
ghost use Rattle.model_rules.specs.Names.{child_module};
ghost use Rattle.check_names.specs.ModuleNames.{items_of};
ghost use Rattle.check_names.specs.Places.{scope_of, with_visible};

use super::locals::Locals;
use super::model_names::ModelNames;
use super::module_names::ModuleNames;
use model_rules::Meaning;
use model_rules::model_tree_api::{FunctionItem, Item, VarType};
use std::alloc::AllocError;

/// A place of a model: the modules, the names of the module around it, the locals that are visible, the name of the function
/// or process around it (outside these of the item), the type of the function's answer, and whether it stands in an unwind
/// block.
#[derive(Drop)]
pub struct Place<'a> {
    /// The modules of the model.
    pub model: &'a ModelNames<'a>,
    /// The names of the module around.
    pub names: &'a ModuleNames<'a>,
    /// The parameters and local variables that are visible.
    pub locals: Locals<'a>,
    /// The name of what is around.
    pub around: &'a [u8],
    /// The type of the answer of the function around, where it has one.
    pub answer: Option<VarType>,
    /// Whether an unwind block is around.
    pub unwinding: bool,
}

impl<'a> Place<'a> {
    /// What a name stands for: a local variable that is visible, or what the module declares.
    pub fn meaning(&self, name: &[u8]) -> Option<Meaning>
        ensures { result ≡ meaning_of (scope_of self.now) name.now }
    {
        match self.locals.find(name) {
            Some(local) => Some(Meaning::Variable(local.value_type)),
            None => self.names.meaning(name),
        }
    }

    /// Whether a name is visible.
    pub fn is_known(&self, name: &[u8]) -> bool
        ensures { result ≡ is_known (scope_of self.now) name.now }
    {
        self.meaning(name).is_some()
    }

    /// The first function of a name in the module around.
    pub fn function(&self, name: &[u8]) -> Option<&'a FunctionItem>
        ensures { option_map function_of (option_copied result) ≡ function_named (scope_of self.now).items name.now }
    {
        self.names.function(name)
    }

    /// The names of the module of a child.
    pub fn child(&self, name: &[u8]) -> Option<&'a ModuleNames<'a>>
        ensures { option_map items_of (option_copied result) ≡ option_map (λ m. m.items) (child_module (scope_of self.now) name.now) }
    {
        match self.names.item(name) {
            Some(Item::Instance(_, kind, _)) => self.model.module(kind.bytes()),
            _ => None,
        }
    }

    /// Declares a local variable or a parameter; nothing has changed where it is refused.
    pub fn declare(&mut self, name: &'a [u8], var_type: VarType) -> Result<(), AllocError>
        ensures declared { OnOk result (scope_of self.new ≡ with_local (scope_of self.old) name.now var_type) }
        ensures err { OnErr result (self.new ≡ self.old) }
    {
        self.locals.declare(name, var_type)
    }

    /// How many locals are visible.
    pub fn mark(&self) -> usize
        ensures { result ≡ length (scope_of self.now).locals }
    {
        self.locals.mark()
    }

    /// Leaves a block: the locals behind the mark are visible no more.
    pub fn leave(&mut self, mark: usize)
        ensures { scope_of self.new ≡ with_visible mark (scope_of self.old) }
    {
        self.locals.leave(mark);
    }
}
