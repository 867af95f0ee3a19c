//! Where a token stands.
ghost use Rattle.std.specs.Prelude.{◌≡◌};
ghost use Rattle.clocked.specs.Turns as spec;
ghost use Rattle.clocked.specs.Views.{head_in, reset_in};

use super::putting::Reset;

/// A clocked thread, as far as its block needs it.
#[derive(Clone, Copy)]
pub struct Head<'a> {
    /// Its name.
    pub thread: &'a [u8],
    /// Its reset at once, if it has one.
    pub asynchronous: Option<Reset<'a>>,
    /// Its reset at an edge, if it has one.
    pub synchronous: Option<Reset<'a>>,
}

/// Where the next token stands.
#[derive(Clone, Copy)]
pub enum State<'a> {
    /// Before `language`.
    Language,
    /// Before the number of the language.
    Version,
    /// Before the `;` behind it.
    LineEnd,
    /// Outside of clocked threads.
    Outside,
    /// Before a thread's name.
    Named,
    /// Before the name of its channel.
    Channel(&'a [u8]),
    /// Behind that name.
    Place(&'a [u8]),
    /// Behind `@`.
    Number(&'a [u8]),
    /// Between parentheses, so many of them open inside.
    Inner(&'a [u8], u64),
    /// Before `.`.
    Dotted(&'a [u8]),
    /// Before `pos` or `neg`.
    Edge(&'a [u8]),
    /// Before a reset or the block.
    Resets(Head<'a>),
    /// Before the signal of a reset, at once or at an edge.
    Signal(Head<'a>, bool),
    /// Before its level.
    Level(Head<'a>, bool, &'a [u8]),
    /// In the block, so many braces open inside, behind a kept token on this line.
    Inside(Head<'a>, u64, u32),
    /// Behind a `tick` on this line.
    Ticked(Head<'a>, u64, u32),
    /// Behind its number.
    Counted(Head<'a>, u64),
}

/// A thread of this name, of which no reset has been read.
pub fn head_of(thread: &[u8]) -> Head<'_>
    ensures { head_in result ≡ spec.head_of thread.now }
{
    Head {
        thread,
        asynchronous: None,
        synchronous: None,
    }
}

impl<'a> Head<'a> {
    /// The same with one more reset, at once or at an edge.
    pub fn with_reset(self, at_once: bool, reset: Reset<'a>) -> Head<'a>
        ensures { head_in result ≡ spec.with_reset (head_in self.entry) at_once (reset_in reset.entry) }
    {
        if at_once {
            Head {
                thread: self.thread,
                asynchronous: Some(reset),
                synchronous: self.synchronous,
            }
        } else {
            Head {
                thread: self.thread,
                asynchronous: self.asynchronous,
                synchronous: Some(reset),
            }
        }
    }

    /// Whether a reset at once may come: no reset has been read, and the name of the method fits.
    pub fn may_be_asynchronous(self) -> bool
        ensures { result ≡ spec.may_be_asynchronous (head_in self.entry) }
    {
        self.asynchronous.is_none() && self.synchronous.is_none() && self.thread.len() <= 57
    }

    /// Whether a reset at an edge may come: none has been read.
    pub fn may_be_synchronous(self) -> bool
        ensures { result ≡ spec.may_be_synchronous (head_in self.entry) }
    {
        self.synchronous.is_none()
    }
}
