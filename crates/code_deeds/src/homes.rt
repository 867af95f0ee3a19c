ghost use Rattle.std.specs.Prelude.{◌≡◌, IfOk};

use code_terms::NameList;

/// What is told of the module around a body.
#[derive(Clone, Copy)]
pub struct Home<'a> {
    /// The number of the module's first body.
    pub first_body: u32,
    /// The names of the module's bodies, in text order.
    pub bodies: &'a NameList<'a>,
    /// The names of exceptions, by their numbers.
    pub exceptions: &'a NameList<'a>,
}
