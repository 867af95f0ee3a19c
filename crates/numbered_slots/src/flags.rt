// The flags of the numbers, and what is done with all that are listed.
ghost use Rattle.std.specs.Prelude.{◌≡◌, ◌+◌, ◌≤◌, ◌++◌, false, length, replicate, count_by, slice_get, vec_len, vec_capacity};
ghost use Rattle.std.specs.List.Sorted.{IsNonDecreasing, IsPermutation};
ghost use Rattle.std.specs.Option.{unwrap_or};
ghost use Rattle.numbered_slots.specs.declared.flags.Flag.TheVariants as flag;
ghost use Rattle.numbered_slots.specs.MarkLayout.{is_marked, marks_of, ListsEachOnce};
ghost use Rattle.numbered_slots.specs.Places.{marked_places};

// What is kept of a number.
#[derive(Clone, Copy)]
pub enum Flag {
    // It does not stand in the list.
    Free,
    // It stands in the list.
    Marked,
    // It stands in the list, and its mark was taken back.
    Struck,
}

impl Flag {
    fn is_marked(self) -> bool
        ensures { result ≡ is_marked self }
    {
        match self {
            Flag::Free => false,
            Flag::Marked => true,
            Flag::Struck => false,
        }
    }
}

// The flag of the number, if it is below the size.
pub(super) fn flag_of(flags: &[Flag], n: u32) -> Option<Flag>
    ensures { result ≡ slice_get flags.now n }
{
    flags.get(n as usize).copied()
}

// Whether the number is marked.
pub(super) fn is_marked_at(flags: &[Flag], n: u32) -> bool
    ensures { result ≡ unwrap_or (slice_get (marks_of flags.now) n) false }
{
    match flag_of(flags, n) {
        Some(flag) => flag.is_marked(),
        None => false,
    }
}

// Frees the flag of each number of the list.
pub(super) fn free_listed(flags: &mut [Flag], listed: &[u32])
    requires lists { ListsEachOnce flags.old listed.now }
    ensures { flags.new ≡ replicate (length flags.old) flag.Free }
{
    for n in listed {
        flags[*n as usize] = Flag::Free;
    }
}

// Puts the numbers in rising order. A list of one stands so.
#[inline(always)]
pub(super) fn put_in_order(listed: &mut Vec<u32>)
    ensures sorted { IsNonDecreasing listed.new.items }
    ensures moved { IsPermutation listed.old.items listed.new.items }
    ensures capacity { vec_capacity listed.new ≡ vec_capacity listed.old }
{
    if listed.len() > 1 {
        listed.sort_unstable();
    }
}

// Moves the marked numbers of the list behind what `out` has, and frees the flag of each number of the list.
pub(super) fn move_marked(flags: &mut [Flag], listed: &[u32], out: &mut Vec<u32>)
    requires lists { ListsEachOnce flags.old listed.now }
    requires sorted { IsNonDecreasing listed.now }
    requires room { vec_len out.old + count_by (λ mark. mark) (marks_of flags.old) ≤ vec_capacity out.old }
    ensures freed { flags.new ≡ replicate (length flags.old) flag.Free }
    ensures moved { out.new.items ≡ out.old.items ++ marked_places (marks_of flags.old) }
    ensures capacity { vec_capacity out.new ≡ vec_capacity out.old }
{
    for n in listed {
        if is_marked_at(flags, *n) {
            out.push_reserved(*n);
        }
        flags[*n as usize] = Flag::Free;
    }
}
