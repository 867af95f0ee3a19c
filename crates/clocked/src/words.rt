ghost use Rattle.std.specs.Prelude.{◌≡◌};
ghost use Rattle.clocked.specs.Words as spec;

/// A word of clocked threads. The last three are used by no text: they stand in what is put in.
#[derive(Clone, Copy, PartialEq, Eq)]
pub enum NewWord {
    /// `cthread`
    Cthread,
    /// `tick`
    Tick,
    /// `async_reset`
    AsyncReset,
    /// `sync_reset`
    SyncReset,
    /// `tick_count`
    TickCount,
    /// `tick_reset`
    TickReset,
    /// `tick_again`
    TickAgain,
}

/// Every new word.
pub static NEW_WORDS: [NewWord; 7] = [
    NewWord::Cthread,
    NewWord::Tick,
    NewWord::AsyncReset,
    NewWord::SyncReset,
    NewWord::TickCount,
    NewWord::TickReset,
    NewWord::TickAgain,
];

/// How a new word is written.
pub fn new_word_text(word: NewWord) -> &'static str
    ensures { result.now ≡ spec.new_word_text word }
{
    match word {
        NewWord::Cthread => "cthread",
        NewWord::Tick => "tick",
        NewWord::AsyncReset => "async_reset",
        NewWord::SyncReset => "sync_reset",
        NewWord::TickCount => "tick_count",
        NewWord::TickReset => "tick_reset",
        NewWord::TickAgain => "tick_again",
    }
}

/// The first of these words that the bytes spell, if they spell one.
fn spelled(words: &[NewWord], bytes: &[u8]) -> Option<NewWord>
    ensures { result ≡ spec.new_spelled words.now bytes.now }
{
    for word in words {
        if new_word_text(*word).as_bytes() == bytes {
            return Some(*word);
        }
    }
    None
}

/// The new word that these bytes spell, if they spell one.
#[tactic(auto, unfolding(crate::specs::Words::new_word_of))]
pub fn new_word_of(bytes: &[u8]) -> Option<NewWord>
    ensures { result ≡ spec.new_word_of bytes.now }
{
    spelled(&NEW_WORDS, bytes)
}
