ghost use Rattle.std.specs.Prelude.{◌≡◌, ◌++◌, [], ◌∷◌, OnOk, IfOk, IfErr};

use model_tree::ParseStop;
use std::alloc::Global;

/// The value in memory of its own, or out of memory.
pub fn boxed<T: Drop>(alloc: Global, value: T) -> Result<Box<T>, ParseStop>
    ensures ok { IfOk result (λ made. made.value ≡ value) }
    ensures err { IfErr result (λ e. e ≡ ParseStop.NoMemory) }
{
    match Box::new(alloc, value) {
        Ok(made) => Ok(made),
        Err(_refused) => Err(ParseStop::NoMemory),
    }
}

/// Adds a value at the end, or answers out of memory.
pub fn push<T: Drop>(found: &mut Vec<T>, value: T) -> Result<(), ParseStop>
    ensures ok { OnOk result (found.new.items ≡ found.old.items ++ value ∷ []) }
    ensures err { IfErr result (λ e. e ≡ ParseStop.NoMemory) }
{
    match found.push(value) {
        Ok(()) => Ok(()),
        Err(_refused) => Err(ParseStop::NoMemory),
    }
}
