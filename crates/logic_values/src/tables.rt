ghost use Rattle.std.specs.Prelude.{◌≡◌, ◌<◌, length};
ghost use Rattle.logic_values.specs.LogicTables.{and_of, or_of, xor_of, not_of, resolved_pair, resolved};

use super::kinds::Digit;

impl Digit {
    /// AND: 0 if either is 0, 1 if both are 1, and else X.
    pub fn and(self, other: Digit) -> Digit
        ensures { result ≡ and_of self other }
    {
        match (self, other) {
            (Digit::Zero, _) | (_, Digit::Zero) => Digit::Zero,
            (Digit::One, Digit::One) => Digit::One,
            _ => Digit::X,
        }
    }

    /// OR: 1 if either is 1, 0 if both are 0, and else X.
    pub fn or(self, other: Digit) -> Digit
        ensures { result ≡ or_of self other }
    {
        match (self, other) {
            (Digit::One, _) | (_, Digit::One) => Digit::One,
            (Digit::Zero, Digit::Zero) => Digit::Zero,
            _ => Digit::X,
        }
    }

    /// XOR: known only where both are 0 or 1, and else X.
    pub fn xor(self, other: Digit) -> Digit
        ensures { result ≡ xor_of self other }
    {
        match (self, other) {
            (Digit::Zero, Digit::Zero) | (Digit::One, Digit::One) => Digit::Zero,
            (Digit::Zero, Digit::One) | (Digit::One, Digit::Zero) => Digit::One,
            _ => Digit::X,
        }
    }

    /// NOT: 0 and 1 change places, and all else is X.
    pub fn not(self) -> Digit
        ensures { result ≡ not_of self }
    {
        match self {
            Digit::Zero => Digit::One,
            Digit::One => Digit::Zero,
            Digit::Z | Digit::X => Digit::X,
        }
    }

    /// What this driver and another make of one wire.
    fn resolved_with(self, other: Digit) -> Digit
        ensures { result ≡ resolved_pair self other }
    {
        match (self, other) {
            (Digit::Z, driven) | (driven, Digit::Z) => driven,
            (Digit::Zero, Digit::Zero) => Digit::Zero,
            (Digit::One, Digit::One) => Digit::One,
            _ => Digit::X,
        }
    }
}

/// What the drivers make of one wire (IEEE 1666-2011, 6.13): resolved pairwise, Z gives way to the other,
/// equal values stay, and all else is X.
pub fn resolve(drivers: &[Digit]) -> Digit
    requires { 0 < length drivers.now }
    ensures { result ≡ resolved drivers.now }
{
    let mut wire = Digit::Z;
    for driver in drivers {
        wire = wire.resolved_with(*driver);
    }
    wire
}
