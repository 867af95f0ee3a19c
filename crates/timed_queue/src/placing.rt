//! Where a time stands: 64 places on each of 11 levels.
ghost use Rattle.std.specs.Prelude.{◌≡◌, ℕ, ◌+◌, ◌*◌, ◌^◌, ◌<◌, ◌≤◌};
ghost use Rattle.timed_queue.specs.Placing.{place_at, start_at};

// The place of a time that is not before the origin: on the first level on which the two have all higher digits to the
// base 64 in common, the place of the digit there.
pub(crate) fn place_of(t: u64, origin: u64) -> u32
    ensures place { result ≡ place_at 10 t origin }
    ensures within { result < 704 }
{
    place_from(t, origin, 10)
}

// The same, with so many levels above this one.
fn place_from(t: u64, origin: u64, levels: u32) -> u32
    requires { levels ≤ 10 }
    ensures { result ≡ place_at levels t origin }
{
    if levels == 0 {
        return (t % 64) as u32;
    }
    if t / 64 == origin / 64 {
        return (t % 64) as u32;
    }
    64 + place_from(t / 64, origin / 64, levels - 1)
}

// The first time that stands in this place, where one does.
pub(crate) fn start_of(place: u32, origin: u64) -> u64
    requires { start_at 10 place origin < 2 ^ 64 }
    ensures { result ≡ start_at 10 place origin }
{
    // A time of the level that the place is on, as one of the lowest level: so many levels are above that.
    let mut unit = 1u64;
    let mut levels = 10u32;
    let mut left = place;
    let mut high = origin;
    'down: while 0 < levels && 64 <= left {
        unit *= 64;
        levels -= 1;
        left -= 64;
        high /= 64;
    }
    unit * (high / 64 * 64 + u64::from(left))
}
