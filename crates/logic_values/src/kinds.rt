use super::planes::Lv;

/// A logic digit (IEEE 1666-2011, 7.9.2, `sc_logic`).
#[derive(Clone, Copy, Debug, PartialEq, Eq)]
pub enum Digit {
    /// Logic 0.
    Zero,
    /// Logic 1.
    One,
    /// High impedance: nothing drives it.
    Z,
    /// Unknown.
    X,
}

/// How the bits of an integer are read.
#[derive(Clone, Copy, Debug, PartialEq, Eq)]
pub enum Sign {
    /// In two's complement.
    Signed,
    /// As a number from 0 up.
    Unsigned,
}

/// A value of a model.
#[derive(Clone, Copy, Debug, PartialEq, Eq)]
pub enum Value {
    /// A truth value.
    Bool(bool),
    /// A signed integer of some width from 1 to 64; `bits` is the number modulo 2^64.
    Int {
        /// The number of bits of the type.
        width: u8,
        /// The number modulo 2^64.
        bits: u64,
    },
    /// An unsigned integer of some width from 1 to 64.
    Uint {
        /// The number of bits of the type.
        width: u8,
        /// The number.
        bits: u64,
    },
    /// A logic digit.
    Logic(Digit),
    /// A vector of logic digits.
    Vector(Lv),
    /// A time, as its plain count of picoseconds.
    Moment(u64),
    /// A handle of a process, by its serial, or the empty handle.
    Handle(Option<u32>),
    /// A handle of a payload, by its number, or the empty handle.
    Pay(Option<u32>),
}
