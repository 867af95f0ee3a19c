//! Paths of objects, and refusals that tell them.
ghost use Rattle.std.specs.Prelude.{◌≡◌, IfOk};
ghost use Rattle.design_rules.specs.ModelTree.Stops.{IfRefused};
ghost use Rattle.design_rules.specs.Objects.{object_at, name_of, is_own_parent, parent_at, path_of};
ghost use Rattle.design_rules.specs.Formed.{AreFormed};
ghost use Rattle.design_rules.specs.BindingFaults.{fault_of};
ghost use Rattle.binding.specs.Names.{path_through};

use design_rules::flat_design_api::Objects;
use design_rules::logic_values_api::Text;
use design_rules::model_tree_api::{CheckStop, Fault, Kind};
use std::alloc::{AllocError, Global};

/// The own name of an object.
fn name_of(objects: &Objects, i: u32) -> &[u8]
    ensures { result.now ≡ name_of (object_at objects.now i) }
{
    match objects.list.as_slice().get(i as usize) {
        Some(object) => object.name.as_slice(),
        None => &[],
    }
}

/// The instance that an object is in.
fn parent_at(objects: &Objects, i: u32) -> u32
    ensures { result ≡ parent_at objects.now i }
{
    match objects.list.as_slice().get(i as usize) {
        Some(object) => object.parent,
        None => 0,
    }
}

/// Whether an object is in itself.
fn is_own_parent(objects: &Objects, i: u32) -> bool
    ensures { result ≡ is_own_parent i (object_at objects.now i) }
{
    match objects.list.as_slice().get(i as usize) {
        Some(object) => object.parent == i,
        None => true,
    }
}

/// The path from the top instance down through these objects, of which the first stands lowest.
fn written(alloc: Global, objects: &Objects, top: u32, up: &[u32]) -> Result<Vec<u8>, AllocError>
    ensures { IfOk result (λ path. path.items ≡ path_through objects.now (name_of (object_at objects.now top)) up.now) }
{
    let mut path = Vec::from_slice(alloc, name_of(objects, top))?;
    for k in (0..up.len()).rev() {
        path.push(b'.')?;
        path.extend_from_slice(name_of(objects, up[k]))?;
    }
    Ok(path)
}

/// The path of an object.
fn path_of(alloc: Global, objects: &Objects, i: u32) -> Result<Vec<u8>, AllocError>
    requires { AreFormed objects.now }
    ensures { IfOk result (λ path. path.items ≡ path_of objects.now i) }
{
    let mut up = Vec::new(alloc);
    let mut at = i;
    while !is_own_parent(objects, at) {
        up.push(at)?;
        at = parent_at(objects, at);
    }
    written(alloc, objects, at, up.as_slice())
}

/// The refusal of an object for a rule of this kind, at this line and with its path.
pub(crate) fn refused(alloc: Global, objects: &Objects, line: u32, i: u32, kind: Kind) -> CheckStop
    requires { AreFormed objects.now }
    ensures { IfRefused result (λ fault. fault ≡ fault_of objects.now line i kind) }
{
    match path_of(alloc, objects, i) {
        Ok(path) => CheckStop::Refused(Fault {
            kind,
            line,
            name: Text::from_vec(path),
        }),
        Err(_) => CheckStop::NoMemory,
    }
}
