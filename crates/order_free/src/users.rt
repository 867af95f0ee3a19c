//! Who uses something.
ghost use Rattle.std.specs.Prelude.{◌≡◌};
ghost use Rattle.order_free.specs.Users as spec;

/// Who uses something.
#[derive(Clone, Copy)]
pub enum Users {
    /// Nobody.
    Nobody,
    /// One process alone, of this serial.
    One(usize),
    /// More than one process.
    Many,
}

/// Whether the users of the first are among those of the second.
pub(crate) fn is_within(x: Users, y: Users) -> bool
    ensures { result ≡ spec.is_within x y }
{
    match x {
        Users::Nobody => true,
        Users::One(p) => match y {
            Users::Nobody => false,
            Users::One(q) => p == q,
            Users::Many => true,
        },
        Users::Many => match y {
            Users::Nobody => false,
            Users::One(_) => false,
            Users::Many => true,
        },
    }
}

/// The users of both.
pub(crate) fn joined(x: Users, y: Users) -> Users
    ensures { result ≡ spec.joined x y }
{
    match x {
        Users::Nobody => y,
        Users::One(p) => match y {
            Users::Nobody => Users::One(p),
            Users::One(q) => { if p == q { Users::One(p) } else { Users::Many } }
            Users::Many => Users::Many,
        },
        Users::Many => Users::Many,
    }
}

pub(crate) fn is_somebody(x: Users) -> bool
    ensures { result ≡ spec.is_somebody x }
{
    match x {
        Users::Nobody => false,
        Users::One(_) => true,
        Users::Many => true,
    }
}

pub(crate) fn is_many(x: Users) -> bool
    ensures { result ≡ spec.is_many x }
{
    match x {
        Users::Nobody => false,
        Users::One(_) => false,
        Users::Many => true,
    }
}
