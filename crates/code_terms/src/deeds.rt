use flat_design::Statement;

/// The code of a statement that holds no others.
#[derive(Drop)]
pub enum Deed {
    /// One statement.
    One(Statement),
    /// Two statements, the first before the second.
    Two(Statement, Statement),
}
