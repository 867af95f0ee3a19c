ghost use Rattle.std.specs.Prelude.{◌≡◌, ◌+◌, ◌%◌, ◌^◌, ◌<◌, ◌≤◌};
ghost use Rattle.logic_values.specs.Integers.{sum_of, difference_of, product_of, quotient_of, remainder_of, shifted_up, shifted_down, is_less, cut_of, bits_of, twos_complement};

use super::kinds::Sign;

/// The sum modulo 2^64, of signed and of unsigned integers.
pub fn add(a: u64, b: u64) -> u64
    ensures { result ≡ sum_of a b }
{
    a.wrapping_add(b)
}

/// The difference modulo 2^64, of signed and of unsigned integers.
pub fn sub(a: u64, b: u64) -> u64
    ensures { result ≡ difference_of a b }
{
    a.wrapping_sub(b)
}

/// The product modulo 2^64, of signed and of unsigned integers.
pub fn mul(a: u64, b: u64) -> u64
    ensures { result ≡ product_of a b }
{
    a.wrapping_mul(b)
}

/// The quotient rounded towards 0, or `None` exactly where `b` is 0.
///
/// The least signed number by -1 gives itself, since its opposite modulo 2^64 is itself.
pub fn div(s: Sign, a: u64, b: u64) -> Option<u64>
    ensures { result ≡ quotient_of s a b }
{
    if b == 0 {
        return None;
    }
    match s {
        Sign::Signed => {
            let quotient = a.cast_signed().wrapping_div(b.cast_signed());
            Some(quotient.cast_unsigned())
        }
        Sign::Unsigned => Some(a / b),
    }
}

/// The remainder of [`div`], which has the sign of `a`, or `None` exactly where `b` is 0.
pub fn rem(s: Sign, a: u64, b: u64) -> Option<u64>
    ensures { result ≡ remainder_of s a b }
{
    if b == 0 {
        return None;
    }
    match s {
        Sign::Signed => {
            let remainder = a.cast_signed().wrapping_rem(b.cast_signed());
            Some(remainder.cast_unsigned())
        }
        Sign::Unsigned => Some(a % b),
    }
}

/// The bits moved `n` places up, with 0 below them; from 64 places on nothing is left.
pub fn shl(a: u64, n: u64) -> u64
    ensures { result ≡ shifted_up a n }
{
    if n < 64 { a << n } else { 0 }
}

/// The bits moved `n` places down: above them stands the sign bit of a signed integer, and else 0.
/// From 64 places on only these are left.
pub fn shr(s: Sign, a: u64, n: u64) -> u64
    ensures { result ≡ shifted_down s a n }
{
    match s {
        Sign::Signed => (a.cast_signed() >> n.min(63)).cast_unsigned(),
        Sign::Unsigned if n < 64 => a >> n,
        Sign::Unsigned => 0,
    }
}

/// Whether `a` is less than `b`, both read with the sign.
pub fn lt(s: Sign, a: u64, b: u64) -> bool
    ensures { result ≡ is_less s a b }
{
    match s {
        Sign::Signed => a.cast_signed() < b.cast_signed(),
        Sign::Unsigned => a < b,
    }
}

/// The number of the lowest `width` bits, as 64 bits: the bits above are the highest of these for a signed
/// integer, and else 0.
pub fn cut(s: Sign, width: u8, a: u64) -> u64
    requires some { 1 ≤ width }
    requires at_most_64 { width ≤ 64 }
    ensures { result ≡ cut_of s width a }
{
    match s {
        Sign::Signed => sign_extend(width, low_bits(width, a)),
        Sign::Unsigned => low_bits(width, a),
    }
}

/// The lowest `width` bits, and 0 above them.
pub(crate) fn low_bits(width: u8, a: u64) -> u64
    requires some { 1 ≤ width }
    requires at_most_64 { width ≤ 64 }
    ensures { result ≡ a % 2 ^ width }
{
    a & low_mask(width)
}

/// A number of `width` bits in two's complement, as 64 bits.
fn sign_extend(width: u8, low: u64) -> u64
    requires some { 1 ≤ width }
    requires at_most_64 { width ≤ 64 }
    requires fits { low < 2 ^ width }
    ensures { result ≡ bits_of (twos_complement width low) }
{
    let mask = low_mask(width);
    if low > mask / 2 { low + !mask } else { low }
}

/// The lowest `width` bits set, and no other.
pub(crate) fn low_mask(width: u8) -> u64
    requires some { 1 ≤ width }
    requires at_most_64 { width ≤ 64 }
    ensures { result + 1 ≡ 2 ^ width }
{
    u64::MAX >> (64 - width)
}
