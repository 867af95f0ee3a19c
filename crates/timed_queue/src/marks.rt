//! Which places hold something: a bit for each of 64 places in a word for each of 11 levels.
ghost use Rattle.std.specs.Prelude.{◌≡◌, ◌≢◌, ℕ, ◌<◌, IfNone, IfSome};
ghost use Rattle.std.specs.Int.{bit_at};
ghost use Rattle.timed_queue.specs.Marked.{mark_of, Marks, IsFirstMark};

// One word a level.
#[derive(Clone, Copy)]
pub(crate) struct Words {
    pub(crate) words: [u64; 11],
}

impl Words {
    // No place is marked.
    pub(crate) fn new() -> Words
        ensures { (q : ℕ) → mark_of result.words q ≡ 0 }
    {
        Words { words: [0; 11] }
    }

    // Marks the place.
    pub(crate) fn mark(&mut self, place: u32)
        requires { place < 704 }
        ensures { Marks self.old.words self.new.words place 1 }
    {
        let level = (place / 64) as usize;
        self.words[level] = with_bit(self.words[level], place % 64);
    }

    // Takes the mark of the place back.
    pub(crate) fn unmark(&mut self, place: u32)
        requires { place < 704 }
        ensures { Marks self.old.words self.new.words place 0 }
    {
        let level = (place / 64) as usize;
        self.words[level] = without_bit(self.words[level], place % 64);
    }

    // The first place that is marked.
    pub(crate) fn first(&self) -> Option<u32>
        ensures none { IfNone result ((q : ℕ) → q < 704 → mark_of self.now.words q ≡ 0) }
        ensures some { IfSome result (IsFirstMark self.now.words) }
    {
        'levels: for level in 0..11u32 {
            let word = self.words[level as usize];
            if word != 0 {
                return Some(64 * level + lowest_bit(word));
            }
        }
        None
    }
}

// The word with this bit set.
fn with_bit(word: u64, bit: u32) -> u64
    requires { bit < 64 }
    ensures here { bit_at result bit ≡ 1 }
    ensures others { (i : ℕ) → i ≢ bit → bit_at result i ≡ bit_at word i }
{
    word | (1 << bit)
}

// The word with this bit cleared.
fn without_bit(word: u64, bit: u32) -> u64
    requires { bit < 64 }
    ensures here { bit_at result bit ≡ 0 }
    ensures others { (i : ℕ) → i < 64 → i ≢ bit → bit_at result i ≡ bit_at word i }
{
    word & !(1 << bit)
}

// The lowest bit that is set.
fn lowest_bit(word: u64) -> u32
    requires { 0 < word }
    ensures within { result < 64 }
    ensures here { bit_at word result ≡ 1 }
    ensures lower { (i : ℕ) → i < result → bit_at word i ≡ 0 }
{
    word.trailing_zeros()
}
