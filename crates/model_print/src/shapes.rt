ghost use Rattle.std.specs.Prelude.{◌≡◌};
ghost use Rattle.model_print.specs.Layout as spec;

/// What a printed token is to its neighbours on a line.
#[derive(Clone, Copy)]
pub enum Shape {
    /// A name, a number, a literal, a type or the word of a conversion.
    Plain,
    /// Any other word of the language.
    Word,
    /// A text between double quotes.
    Quoted,
    /// An operator between two tokens.
    Operator,
    /// An operator before its operand.
    Prefix,
    /// `(` or `[`
    Open,
    /// `)` or `]`
    Close,
    /// `,`
    Comma,
    /// `.` or `@`
    Joint,
    /// `;`
    Semicolon,
    /// `{`
    LeftBrace,
    /// `}`
    RightBrace,
}

/// Whether a blank stands between two tokens of a line.
pub(crate) fn is_spaced(before: Shape, after: Shape) -> bool
    ensures { result ≡ spec.is_spaced before after }
{
    match (before, after) {
        (Shape::Open | Shape::Joint | Shape::Prefix, _) => false,
        (_, Shape::Semicolon | Shape::Comma | Shape::Joint | Shape::Close) => false,
        (Shape::Operator | Shape::Word | Shape::Quoted, Shape::Open) => true,
        (_, Shape::Open) => false,
        _ => true,
    }
}

/// Whether a line ends behind the token.
pub(crate) fn ends_line(shape: Shape) -> bool
    ensures { result ≡ spec.ends_line shape }
{
    matches!(
        shape,
        Shape::LeftBrace | Shape::RightBrace | Shape::Semicolon
    )
}
