ghost use Rattle.std.specs.Prelude.{◌≡◌, ◌≤◌, ◌∷◌, [], replicate};
ghost use Rattle.logic_values.specs.Digits.{digits};
ghost use Rattle.logic_values.specs.Vectors.{binary_digits, value_of, resized};

use super::integers::{low_bits, low_mask};
use super::kinds::Digit;
use super::planes::Lv;

impl Lv {
    /// The vector of one digit.
    pub fn single(d: Digit) -> Lv
        ensures width { result.width ≡ 1 }
        ensures each_digit { digits result ≡ d ∷ [] }
    {
        Lv::filled(1, d)
    }

    /// A vector of one digit throughout.
    pub fn filled(width: u8, d: Digit) -> Lv
        requires some { 1 ≤ width }
        requires at_most_64 { width ≤ 64 }
        ensures width { result.width ≡ width }
        ensures each_digit { digits result ≡ replicate width d }
    {
        let mask = low_mask(width);
        match d {
            Digit::Zero => Lv {
                width,
                ones: 0,
                unknown: 0,
            },
            Digit::One => Lv {
                width,
                ones: mask,
                unknown: 0,
            },
            Digit::Z => Lv {
                width,
                ones: 0,
                unknown: mask,
            },
            Digit::X => Lv {
                width,
                ones: mask,
                unknown: mask,
            },
        }
    }

    /// The lowest `width` bits of an integer as digits.
    pub fn of_bits(width: u8, bits: u64) -> Lv
        requires some { 1 ≤ width }
        requires at_most_64 { width ≤ 64 }
        ensures width { result.width ≡ width }
        ensures each_digit { digits result ≡ binary_digits width bits }
    {
        Lv {
            width,
            ones: low_bits(width, bits),
            unknown: 0,
        }
    }

    /// The vector at another width: cut above, or filled with 0 there.
    pub fn resize(self, width: u8) -> Lv
        requires some { 1 ≤ width }
        requires at_most_64 { width ≤ 64 }
        ensures width { result.width ≡ width }
        ensures each_digit { digits result ≡ resized width (digits self) }
    {
        Lv {
            width,
            ones: low_bits(width, self.ones),
            unknown: low_bits(width, self.unknown),
        }
    }

    /// The number that the digits stand for in base 2, where each but 1 counts as 0.
    pub fn number(self) -> u64
        ensures { result ≡ value_of (digits self) }
    {
        self.ones & !self.unknown
    }
}
