//! Modules by their names.
ghost use Rattle.std.specs.Prelude.{◌≡◌, IfOk};
ghost use Rattle.check_names.specs.ModelTree.Views.{modules_of};
ghost use Rattle.design_rules.specs.Forms.{module_place};

use super::names::NamePlaces;
use check_names::model_tree_api::Module;
use std::alloc::{AllocError, Global};
use std::marker::Model;

/// The modules of a model, with their places by their names. Contracts see the list of them.
#[derive(Drop)]
pub struct ModulePlaces<'a> {
    modules: &'a [Module],
    places: NamePlaces<'a>,
}

impl<'a> Model for ModulePlaces<'a> {
    ghost use Rattle.std.specs.Prelude.{◌≡◌, List};
    ghost use Rattle.std.specs.Coded.{coded_list};
    ghost use Rattle.check_names.specs.ModelTree.declared.items.Module.{Module};
    ghost use Rattle.check_names.specs.ModelTree.contracts.items.Module.{the_row};
    ghost use Rattle.elaborate_objects.specs.Places.{names_of_modules};

    ghost Value = { List Module };

    ghost coded = { coded_list the_row.coded };

    ghost view = { λ m. m.modules.now };

    ghost invariant = { λ m. m.places ≡ names_of_modules m.modules.now };
}

impl<'a> ModulePlaces<'a> {
    /// The places of these modules.
    pub fn new(alloc: Global, modules: &'a [Module]) -> Result<ModulePlaces<'a>, AllocError>
        ensures { IfOk result (λ places. places ≡ modules.now) }
    {
        let mut places = NamePlaces::new(alloc);
        for module in modules {
            places.push(module.name.bytes())?;
        }
        Ok(ModulePlaces { modules, places })
    }

    /// The modules.
    pub fn modules(&self) -> &'a [Module]
        ensures { result.now ≡ self.now }
    {
        let _places = &self.places;
        self.modules
    }

    /// The place in the text of the first module of this name, counted from 0; their number where there is none.
    pub fn find(&self, name: &[u8]) -> usize
        ensures { result ≡ module_place (modules_of self.now) name.now }
    {
        match self.places.find(name) {
            Some(place) => place,
            None => self.modules.len(),
        }
    }
}
