ghost use Rattle.std.specs.Prelude.{◌≡◌, ◌++◌, ◌∷◌, ◌<◌, [], OnOk, IfOk, map, length, is_some, option_map, get_or, slice_get};
ghost use Rattle.std.specs.Option.{option_copied};
ghost use Rattle.model_rules.specs.ModelTree.Views.{modules_of};
ghost use Rattle.model_rules.specs.Scopes.{module_named};
ghost use Rattle.model_rules.specs.Names.{is_module_name};
ghost use Rattle.check_names.specs.Tables.{with_first};
ghost use Rattle.check_names.specs.ModuleNames.{items_of};
ghost use Rattle.check_names.specs.ModelNames.{module_items, AreModules};

use super::module_names::ModuleNames;
use super::name_table::NameTable;
use model_rules::model_tree_api::Module;
use std::alloc::{AllocError, Global};
use std::marker::Model;

/// The modules of a model, each with the names that it declares. A look-up takes the same time however many there are.
#[derive(Drop)]
pub struct ModelNames<'a> {
    modules: &'a [Module],
    tables: Vec<ModuleNames<'a>>,
    places: NameTable<'a>,
}

impl<'a> Model for ModelNames<'a> {
    ghost use Rattle.std.specs.Prelude.{List};
    ghost use Rattle.model_rules.specs.ModelTree.declared.items.Module.{Module};
    ghost use Rattle.model_rules.specs.ModelTree.contracts.items.Module.{the_row};
    ghost use Rattle.std.specs.Coded.{coded_list};

    ghost Value = { List Module };

    ghost coded = { coded_list the_row.coded };

    ghost use Rattle.check_names.specs.ModelNames.{AreModules};

    ghost view = { λ m. m.modules.now };

    ghost invariant = { λ m. AreModules m.modules.now m.tables.items m.places };
}

/// The names of the module at a place of the text, where there is one.
fn table_at<'b, 'a>(tables: &'b [ModuleNames<'a>], place: usize) -> Option<&'b ModuleNames<'a>>
    ensures { option_copied result ≡ slice_get tables.now place }
{
    tables.get(place)
}

/// Puts a module behind others.
fn add_module<'a>(
    alloc: Global,
    tables: &mut Vec<ModuleNames<'a>>,
    places: &mut NameTable<'a>,
    module: &'a Module,
) -> Result<(), AllocError>
    ensures tables { OnOk result (tables.new.items ≡ tables.old.items ++ module.now.items.items ∷ []) }
    ensures places { OnOk result (places.new ≡ with_first places.old module.now.name (length tables.old.items)) }
{
    let names = ModuleNames::new(alloc, module.items.as_slice())?;
    places.declare(module.name.bytes(), tables.len())?;
    tables.push(names)?;
    Ok(())
}

impl<'a> ModelNames<'a> {
    /// The names of these modules.
    pub fn new(alloc: Global, modules: &'a [Module]) -> Result<ModelNames<'a>, AllocError>
        ensures { IfOk result (λ names. names ≡ modules.now) }
    {
        let mut tables = Vec::new(alloc);
        let mut places = NameTable::new(alloc);
        for module in modules {
            add_module(alloc, &mut tables, &mut places, module)?;
        }
        Ok(ModelNames {
            modules,
            tables,
            places,
        })
    }

    /// The names of the first module of this name.
    pub fn module(&self, name: &[u8]) -> Option<&ModuleNames<'a>>
        ensures { option_map items_of (option_copied result) ≡ option_map (λ m. m.items) (module_named (modules_of self.now) name.now) }
    {
        match self.places.find(name) {
            None => None,
            Some(place) => table_at(self.tables.as_slice(), place),
        }
    }

    /// Whether a module has this name.
    pub fn is_module(&self, name: &[u8]) -> bool
        ensures { result ≡ is_module_name (modules_of self.now) name.now }
    {
        self.module(name).is_some()
    }

    /// The names of the module at a place of the text.
    pub fn names_at(&self, place: usize) -> &ModuleNames<'a>
        requires { place < length self.now }
        ensures { result.now ≡ get_or (module_items self.now) place [] }
    {
        let _modules = &self.modules;
        &self.tables[place]
    }
}
