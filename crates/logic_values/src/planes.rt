ghost use Rattle.std.specs.Prelude.{◌<◌, ◌≤◌, ◌^◌};

/// A vector of 1 to 64 logic digits, kept in two planes of bits (IEEE 1666-2011, 7.9.6, `sc_lv`).
///
/// The digit of a place is its bits in (`unknown`, `ones`): 00 is 0, 01 is 1, 10 is Z and 11 is X.
/// Place 0 is the lowest. Contracts speak of the list `digits v` of its digits, that of place 0 first.
#[derive(Clone, Copy, Debug, PartialEq, Eq)]
pub struct Lv {
    /// The number of digits, from 1 to 64.
    pub width: u8,
    /// The bits of the digits 1 and X; 0 above the width.
    pub ones: u64,
    /// The bits of the digits Z and X; 0 above the width.
    pub unknown: u64,
    pub ghost not_empty: { 1 ≤ width },
    pub ghost at_most_64: { width ≤ 64 },
    pub ghost ones_fit: { ones < 2 ^ width },
    pub ghost unknown_fit: { unknown < 2 ^ width },
}
