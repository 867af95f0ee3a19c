ghost use Rattle.std.specs.Prelude.{◌≡◌, ◌+◌, ◌<◌, ◌≤◌, map, ◌++◌, ◌∷◌, [], slice_get, slice_range, replicate, List};
ghost use Rattle.logic_values.specs.Digits.{digits};
ghost use Rattle.logic_values.specs.Planes.{lv_of};
ghost use Rattle.logic_values.specs.LogicTables.{and_of, or_of, xor_of, not_of};
ghost use Rattle.logic_values.specs.Vectors.{digit_by_digit};

use super::integers::{low_bits, low_mask};
use super::kinds::Digit;
use super::planes::Lv;

/// AND, digit by digit: 0 where either is 0, 1 where both are 1, and else X.
pub fn and(a: Lv, b: Lv) -> Lv
    requires { a.width ≡ b.width }
    ensures width { result.width ≡ a.width }
    ensures each_digit { digits result ≡ digit_by_digit and_of (digits a) (digits b) }
{
    let ones = (a.ones | a.unknown) & (b.ones | b.unknown);
    Lv {
        width: a.width,
        ones,
        unknown: ones & (a.unknown | b.unknown),
    }
}

/// OR, digit by digit: 1 where either is 1, 0 where both are 0, and else X.
pub fn or(a: Lv, b: Lv) -> Lv
    requires { a.width ≡ b.width }
    ensures width { result.width ≡ a.width }
    ensures each_digit { digits result ≡ digit_by_digit or_of (digits a) (digits b) }
{
    not(and(not(a), not(b)))
}

/// XOR, digit by digit: known only where both digits are 0 or 1, and else X.
pub fn xor(a: Lv, b: Lv) -> Lv
    requires { a.width ≡ b.width }
    ensures width { result.width ≡ a.width }
    ensures each_digit { digits result ≡ digit_by_digit xor_of (digits a) (digits b) }
{
    let unknown = a.unknown | b.unknown;
    Lv {
        width: a.width,
        ones: (a.ones ^ b.ones) | unknown,
        unknown,
    }
}

/// NOT, digit by digit: 0 and 1 change places, and all else is X.
pub fn not(a: Lv) -> Lv
    ensures width { result.width ≡ a.width }
    ensures each_digit { digits result ≡ map not_of (digits a) }
{
    Lv {
        width: a.width,
        ones: (a.ones ^ low_mask(a.width)) | a.unknown,
        unknown: a.unknown,
    }
}

/// The digits from place `low` up to place `high`, both included.
pub fn slice(a: Lv, high: u8, low: u8) -> Lv
    requires order { low ≤ high }
    requires within { high < a.width }
    ensures width { result.width + low ≡ high + 1 }
    ensures each_digit { digits result ≡ slice_range (digits a) low (high + 1) }
{
    let width = high - low + 1;
    Lv {
        width,
        ones: low_bits(width, a.ones >> low),
        unknown: low_bits(width, a.unknown >> low),
    }
}

/// The digit of place `i`.
pub fn digit(a: Lv, i: u8) -> Digit
    requires { i < a.width }
    ensures { slice_get (digits a) i ≡ Some result }
{
    match ((a.unknown >> i) & 1 == 1, (a.ones >> i) & 1 == 1) {
        (false, false) => Digit::Zero,
        (false, true) => Digit::One,
        (true, false) => Digit::Z,
        (true, true) => Digit::X,
    }
}

/// Two vectors as one, `a` above `b`.
pub fn concat(a: Lv, b: Lv) -> Lv
    requires { a.width + b.width ≤ 64 }
    ensures width { result.width ≡ a.width + b.width }
    ensures each_digit { digits result ≡ digits b ++ digits a }
{
    Lv {
        width: a.width + b.width,
        ones: (a.ones << b.width) | b.ones,
        unknown: (a.unknown << b.width) | b.unknown,
    }
}

/// A vector is known by its digits.
pub fn vector_of_digits()
    ensures { (v : Lv) (ds : List Digit) → digits v ≡ ds → v ≡ lv_of ds }
{}
