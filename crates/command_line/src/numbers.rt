ghost use Rattle.std.specs.Prelude.{◌≡◌};
ghost use Rattle.std.specs.Char.{is_ascii_digit};
ghost use Rattle.std.specs.List.{list_all};
ghost use Rattle.command_line.specs.Numbers as spec;
ghost use Rattle.command_line.specs.Views.{text_of};

/// The steps of a run where the words say nothing of them.
pub const DEFAULT_BUDGET: u64 = 10_000_000;

/// The greatest number of steps that the words may ask for.
pub const BUDGET_LIMIT: u64 = 67_108_864;

/// The greatest size of a generated model.
pub const GENERATED_LIMIT: u64 = 1_000;

fn all_digits(bytes: &[u8]) -> bool
    ensures { result ≡ list_all is_ascii_digit bytes.now }
{
    bytes.iter().all(|byte| byte.is_ascii_digit())
}

/// Whether a text is decimal digits, at least one.
fn is_decimal(text: &str) -> bool
    ensures { result ≡ spec.is_decimal text.now }
{
    !text.is_empty() && all_digits(text.as_bytes())
}

/// The number that a text writes in decimal digits alone, if it is in the range.
pub fn number_in(least: u64, most: u64, text: &str) -> Option<u64>
    ensures { result ≡ spec.number_in least most text.now }
{
    if !is_decimal(text) {
        return None;
    }
    let Ok(number) = text.parse::<u64>() else {
        return None;
    };
    if least <= number && number <= most {
        Some(number)
    } else {
        None
    }
}

/// The same of a value that may be left out.
pub fn number_or(missing: u64, least: u64, most: u64, text: Option<&str>) -> Option<u64>
    ensures { result ≡ spec.number_or missing least most (text_of text.entry) }
{
    match text {
        Some(text) => number_in(least, most, text),
        None => Some(missing),
    }
}
