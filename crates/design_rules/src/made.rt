/// An instance of a module.
#[derive(Clone, Copy, Debug, PartialEq, Eq)]
pub struct Made {
    /// The line of its item.
    pub line: u32,
    /// The place in the text of its module; the number of modules where that is not declared.
    pub place: u32,
}
