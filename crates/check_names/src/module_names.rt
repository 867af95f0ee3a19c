ghost use Rattle.std.specs.Prelude.{◌≡◌, ◌++◌, ◌∷◌, [], OnOk, map, length, find, position, filter, option_map, IfOk};
ghost use Rattle.std.specs.Option.{option_copied};
ghost use Rattle.model_rules.specs.ModelTree.Views.{item_of, function_of};
ghost use Rattle.model_rules.specs.Meanings.{declarations};
ghost use Rattle.model_rules.specs.Scopes.{is_declared, functions_in, function_named};
ghost use Rattle.model_rules.specs.Names.{is_item_named};
ghost use Rattle.check_names.specs.Tables.{numbered, numbered_from};
ghost use Rattle.check_names.specs.ModuleNames.{items_of, is_declaring, names_declared, names_of_functions};

use super::lists::item_at;
use super::meanings::{item_meaning, item_name};
use super::name_table::NameTable;
use model_rules::Meaning;
use model_rules::model_tree_api::{FunctionItem, Item};
use std::alloc::{AllocError, Global};
use std::marker::Model;

/// The names that the items of a module declare. A look-up takes the same time however many there are.
#[derive(Drop)]
pub struct ModuleNames<'a> {
    items: &'a [Item],
    declaring: Vec<&'a Item>,
    places: NameTable<'a>,
    functions: Vec<&'a FunctionItem>,
    function_places: NameTable<'a>,
}

impl<'a> Model for ModuleNames<'a> {
    ghost use Rattle.std.specs.Prelude.{List, map};
    ghost use Rattle.model_rules.specs.ModelTree.declared.items.Item.{Item};
    ghost use Rattle.model_rules.specs.ModelTree.contracts.items.Item.{the_row};
    ghost use Rattle.std.specs.Coded.{coded_list};

    ghost Value = { List Item };

    ghost coded = { coded_list the_row.coded };

    ghost use Rattle.check_names.specs.ModuleNames.{AreNames};

    ghost view = { λ m. m.items.now };

    ghost invariant = { λ m. AreNames m.items.now (map (λ i. i.now) m.declaring.items) m.places (map (λ f. f.now) m.functions.items) m.function_places };
}

/// Puts an item behind others that declare a name, if it does so itself.
fn add_item<'a>(
    declaring: &mut Vec<&'a Item>,
    places: &mut NameTable<'a>,
    item: &'a Item,
) -> Result<(), AllocError>
    ensures items { OnOk result (map (λ i. i.now) declaring.new.items ≡ map (λ i. i.now) declaring.old.items ++ filter is_declaring (item.now ∷ [])) }
    ensures places { OnOk result (places.new ≡ numbered_from (length declaring.old.items) places.old (names_declared (items_of (item.now ∷ [])))) }
{
    match item_name(item) {
        None => Ok(()),
        Some(name) => {
            places.declare(name, declaring.len())?;
            declaring.push(item)?;
            Ok(())
        }
    }
}

/// The items that declare a name, in text order, and the places of their names.
fn declaring_items<'a>(
    alloc: Global,
    items: &'a [Item],
) -> Result<(Vec<&'a Item>, NameTable<'a>), AllocError>
    ensures items { IfOk result (λ r. map (λ i. i.now) r.0.items ≡ filter is_declaring items.now) }
    ensures places { IfOk result (λ r. r.1 ≡ numbered (names_declared (items_of items.now))) }
{
    let mut declaring = Vec::new(alloc);
    let mut places = NameTable::new(alloc);
    for item in items {
        add_item(&mut declaring, &mut places, item)?;
    }
    Ok((declaring, places))
}

/// Puts an item behind functions, if it is one itself.
fn add_function<'a>(
    functions: &mut Vec<&'a FunctionItem>,
    places: &mut NameTable<'a>,
    item: &'a Item,
) -> Result<(), AllocError>
    ensures functions { OnOk result (map (λ f. function_of f.now) functions.new.items ≡ map (λ f. function_of f.now) functions.old.items ++ functions_in (items_of (item.now ∷ []))) }
    ensures places { OnOk result (places.new ≡ numbered_from (length functions.old.items) places.old (names_of_functions (items_of (item.now ∷ [])))) }
{
    match item {
        Item::Function(_, function) => {
            places.declare(function.name.bytes(), functions.len())?;
            functions.push(function)?;
            Ok(())
        }
        _ => Ok(()),
    }
}

/// The functions among items, in text order, and the places of their names.
fn functions_among<'a>(
    alloc: Global,
    items: &'a [Item],
) -> Result<(Vec<&'a FunctionItem>, NameTable<'a>), AllocError>
    ensures functions { IfOk result (λ r. map (λ f. function_of f.now) r.0.items ≡ functions_in (items_of items.now)) }
    ensures places { IfOk result (λ r. r.1 ≡ numbered (names_of_functions (items_of items.now))) }
{
    let mut functions = Vec::new(alloc);
    let mut places = NameTable::new(alloc);
    for item in items {
        add_function(&mut functions, &mut places, item)?;
    }
    Ok((functions, places))
}

impl<'a> ModuleNames<'a> {
    /// The names of these items.
    pub fn new(alloc: Global, items: &'a [Item]) -> Result<ModuleNames<'a>, AllocError>
        ensures { IfOk result (λ names. names ≡ items.now) }
    {
        let (declaring, places) = declaring_items(alloc, items)?;
        let (functions, function_places) = functions_among(alloc, items)?;
        Ok(ModuleNames {
            items,
            declaring,
            places,
            functions,
            function_places,
        })
    }

    /// The place of a name among those that the module declares: that of the first of equal names.
    pub fn place(&self, name: &[u8]) -> Option<usize>
        ensures { result ≡ position (is_declared name.now) (declarations (items_of self.now)) }
    {
        let _items = &self.items;
        self.places.find(name)
    }

    /// The first item that declares a name.
    pub fn item(&self, name: &[u8]) -> Option<&'a Item>
        ensures { option_map item_of (option_copied result) ≡ find (is_item_named name.now) (items_of self.now) }
    {
        match self.places.find(name) {
            None => None,
            Some(place) => item_at(self.declaring.as_slice(), place),
        }
    }

    /// What a name of the module stands for.
    pub fn meaning(&self, name: &[u8]) -> Option<Meaning>
        ensures { result ≡ option_map (λ d. d.meaning) (find (is_declared name.now) (declarations (items_of self.now))) }
    {
        match self.item(name) {
            None => None,
            Some(item) => item_meaning(item),
        }
    }

    /// The first function of a name.
    pub fn function(&self, name: &[u8]) -> Option<&'a FunctionItem>
        ensures { option_map function_of (option_copied result) ≡ function_named (items_of self.now) name.now }
    {
        match self.function_places.find(name) {
            None => None,
            Some(place) => item_at(self.functions.as_slice(), place),
        }
    }
}
