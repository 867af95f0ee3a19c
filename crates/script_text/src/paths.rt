ghost use Rattle.std.specs.Prelude.{◌≡◌, ◌≢◌, ◌<◌, ◌≤◌, ◌==◌, ◌⊎◌, true, false, ℕ, List, [], length, drop, slice_get, bytes_eq, IfSome, IsNone, IsTrue};
ghost use Rattle.std.specs.Option.{option_copied};
ghost use Rattle.sim_model.specs.Configuration.{below, path_up};

use sim_model::flat_design_api::Object;

/// The bytes from a place on.
fn past(bytes: &[u8], place: usize) -> &[u8]
    requires { place ≤ length bytes.now }
    ensures { result.now ≡ drop place bytes.now }
{
    &bytes[place..]
}

fn are_same(a: &[u8], b: &[u8]) -> bool
    ensures { result ≡ bytes_eq a.now b.now }
{
    a == b
}

fn is_nothing(bytes: &[u8]) -> bool
    ensures { result ≡ bytes_eq [] bytes.now }
{
    match bytes {
        [] => true,
        _ => false,
    }
}

/// The object with this number.
fn object_at(objects: &[Object], number: u32) -> Option<&Object>
    ensures { option_copied result ≡ slice_get objects.now number }
{
    objects.get(number as usize)
}

/// What stands in a path before its last name and the dot, where the last name is this one.
fn before_last<'a>(path: &'a [u8], name: &[u8]) -> Option<&'a [u8]>
    ensures front { IfSome result (λ front. path.now ≡ below front.now name.now) }
    ensures none { IsNone result → (front : List ℕ) → below front name.now ≢ path.now }
{
    if path.len() <= name.len() {
        return None;
    }
    let dot = path.len() - name.len() - 1;
    if path[dot] != b'.' {
        return None;
    }
    let last = past(path, dot + 1);
    if are_same(last, name) {
        Some(&path[..dot])
    } else {
        None
    }
}

/// Whether no step up is left: the object is in itself, or no step may be made.
fn is_top(steps: u32, at: u32, parent: u32) -> bool
    ensures top { IsTrue result → (steps ≡ 0) ⊎ ((parent == at) ≡ true) }
    ensures below { result ≡ false → (0 < steps) × ((parent == at) ≡ false) }
{
    if steps == 0 {
        return true;
    }
    parent == at
}

/// Whether a path is that of the object with this number: its names are compared from the last one up.
pub(crate) fn is_path_of(objects: &[Object], object: u32, path: &[u8]) -> bool
    ensures { result ≡ bytes_eq (path_up object objects.now object) path.now }
{
    let mut steps = object;
    let mut at = object;
    let mut rest = path;
    'names: loop {
        let Some(here) = object_at(objects, at) else {
            return is_nothing(rest);
        };
        if is_top(steps, at, here.parent) {
            return are_same(here.name.as_slice(), rest);
        }
        let Some(front) = before_last(rest, here.name.as_slice()) else {
            return false;
        };
        steps -= 1;
        at = here.parent;
        rest = front;
    }
}
