ghost use Rattle.std.specs.Prelude.{◌≡◌};
ghost use Rattle.model_tree.specs.Lines as spec;
ghost use Rattle.model_tree.specs.Views.{expression_of, item_of};

use super::expressions::Expression;
use super::items::Item;

/// The line of an expression's first token.
pub fn first_line(expression: &Expression) -> u32
    ensures { result ≡ spec.first_line (expression_of expression.now) }
{
    match expression {
        Expression::Number(line, _)
        | Expression::Time(line, _, _)
        | Expression::Logic(line, _)
        | Expression::Truth(line, _)
        | Expression::Now(line)
        | Expression::Myself(line)
        | Expression::Constant(line, _)
        | Expression::Paren(line, _)
        | Expression::Convert(line, _, _)
        | Expression::ToVector(line, _, _)
        | Expression::Concat(line, _, _)
        | Expression::Named(line, _)
        | Expression::Placed(line, _, _)
        | Expression::PlacedBy(line, _, _)
        | Expression::Unary(line, _, _) => *line,
        Expression::Member(first, _)
        | Expression::Element(first, _)
        | Expression::Slice(first, _, _)
        | Expression::Binary(_, first, _) => first_line(first),
    }
}

/// The line of an item's first token.
pub fn item_line(item: &Item) -> u32
    ensures { result ≡ spec.item_line (item_of item.now) }
{
    match item {
        Item::Signal(line, _)
        | Item::Resolved(line, _)
        | Item::Clock(line, _)
        | Item::Fifo(line, _, _, _)
        | Item::Plain(line, _, _)
        | Item::Semaphore(line, _, _)
        | Item::Memory(line, _, _)
        | Item::Variable(line, _, _, _)
        | Item::Port(line, _, _, _)
        | Item::Export(line, _, _)
        | Item::Initiator(line, _, _)
        | Item::Target(line, _, _)
        | Item::Instance(line, _, _)
        | Item::Bind(line, _, _)
        | Item::Function(line, _)
        | Item::Process(line, _) => *line,
    }
}
