ghost use Rattle.std.specs.Prelude.{◌≡◌};
ghost use Rattle.model_tree.specs.Vocabulary as spec;

/// A reserved word of the model language. The names of the payload's constants are reserved too.
#[derive(Clone, Copy, PartialEq, Eq)]
pub enum Word {
    /// `module`
    Module,
    /// `top`
    Top,
    /// `bool`
    Bool,
    /// `logic`
    Logic,
    /// `int`
    Int,
    /// `uint`
    Uint,
    /// `lv`
    Lv,
    /// `time`
    Time,
    /// `process`
    Process,
    /// `payload`
    Payload,
    /// `true`
    True,
    /// `false`
    False,
    /// `in`
    In,
    /// `out`
    Out,
    /// `fifo_in`
    FifoIn,
    /// `fifo_out`
    FifoOut,
    /// `mutex_port`
    MutexPort,
    /// `semaphore_port`
    SemaphorePort,
    /// `signal`
    Signal,
    /// `buffer`
    Buffer,
    /// `many`
    Many,
    /// `resolved`
    Resolved,
    /// `clock`
    Clock,
    /// `period`
    Period,
    /// `high`
    High,
    /// `start`
    Start,
    /// `fifo`
    Fifo,
    /// `size`
    Size,
    /// `mutex`
    Mutex,
    /// `event`
    Event,
    /// `keeper`
    Keeper,
    /// `semaphore`
    Semaphore,
    /// `memory`
    Memory,
    /// `var`
    Var,
    /// `zero`
    Zero,
    /// `all_bound`
    AllBound,
    /// `export`
    Export,
    /// `initiator`
    Initiator,
    /// `pass`
    Pass,
    /// `bw`
    Bw,
    /// `target`
    Target,
    /// `bt`
    Bt,
    /// `fw`
    Fw,
    /// `inst`
    Inst,
    /// `bind`
    Bind,
    /// `to`
    To,
    /// `func`
    Func,
    /// `thread`
    Thread,
    /// `method`
    Method,
    /// `dont_initialize`
    DontInitialize,
    /// `inout`
    Inout,
    /// `sensitive`
    Sensitive,
    /// `if`
    If,
    /// `else`
    Else,
    /// `while`
    While,
    /// `guard`
    Guard,
    /// `unwind`
    Unwind,
    /// `try`
    Try,
    /// `catch`
    Catch,
    /// `call`
    Call,
    /// `read`
    Read,
    /// `nb_read`
    NbRead,
    /// `nb_write`
    NbWrite,
    /// `trylock`
    Trylock,
    /// `unlock`
    Unlock,
    /// `sem_trywait`
    SemTrywait,
    /// `nb_transport`
    NbTransport,
    /// `write`
    Write,
    /// `print`
    Print,
    /// `notify`
    Notify,
    /// `delta`
    Delta,
    /// `after`
    After,
    /// `cancel`
    Cancel,
    /// `wait`
    Wait,
    /// `next_trigger`
    NextTrigger,
    /// `lock`
    Lock,
    /// `sem_wait`
    SemWait,
    /// `post`
    Post,
    /// `make`
    Make,
    /// `acquire`
    Acquire,
    /// `release`
    Release,
    /// `carry`
    Carry,
    /// `b_transport`
    BTransport,
    /// `qk_global`
    QkGlobal,
    /// `qk_inc`
    QkInc,
    /// `qk_set`
    QkSet,
    /// `qk_reset`
    QkReset,
    /// `qk_sync`
    QkSync,
    /// `spawn`
    Spawn,
    /// `suspend`
    Suspend,
    /// `resume`
    Resume,
    /// `disable`
    Disable,
    /// `enable`
    Enable,
    /// `kill`
    Kill,
    /// `reset`
    Reset,
    /// `throw_it`
    ThrowIt,
    /// `throw`
    Throw,
    /// `return`
    Return,
    /// `stop`
    Stop,
    /// `self`
    SelfProcess,
    /// `for`
    For,
    /// `any`
    Any,
    /// `all`
    All,
    /// `now`
    Now,
    /// `concat`
    Concat,
    /// `READ`
    ReadCommand,
    /// `WRITE`
    WriteCommand,
    /// `IGNORE`
    IgnoreCommand,
    /// `OK`
    OkResponse,
    /// `INCOMPLETE`
    IncompleteResponse,
    /// `GENERIC`
    GenericResponse,
    /// `ADDRESS`
    AddressResponse,
    /// `COMMAND`
    CommandResponse,
    /// `BURST`
    BurstResponse,
    /// `BYTE_ENABLE`
    ByteEnableResponse,
    /// `BEGIN_REQ`
    BeginReq,
    /// `END_REQ`
    EndReq,
    /// `BEGIN_RESP`
    BeginResp,
    /// `END_RESP`
    EndResp,
    /// `ACCEPTED`
    Accepted,
    /// `UPDATED`
    Updated,
    /// `COMPLETED`
    Completed,
    /// `language`, reserved in language 2 alone
    Language,
    /// `resolution`, reserved in language 2 alone
    Resolution,
    /// `descendants`, reserved in language 2 alone
    Descendants,
    /// `fs`, a unit in language 2 alone
    Fs,
}

/// A symbol of the model language.
#[derive(Clone, Copy, PartialEq, Eq)]
pub enum Symbol {
    /// `<=`
    LessEqual,
    /// `>=`
    GreaterEqual,
    /// `==`
    EqualEqual,
    /// `!=`
    NotEqual,
    /// `<<`
    ShiftLeft,
    /// `>>`
    ShiftRight,
    /// `&&`
    AndAnd,
    /// `||`
    OrOr,
    /// `->`
    Arrow,
    /// `{`
    LeftBrace,
    /// `}`
    RightBrace,
    /// `(`
    LeftParen,
    /// `)`
    RightParen,
    /// `[`
    LeftBracket,
    /// `]`
    RightBracket,
    /// `<`
    Less,
    /// `>`
    Greater,
    /// `+`
    Plus,
    /// `-`
    Minus,
    /// `*`
    Star,
    /// `/`
    Slash,
    /// `%`
    Percent,
    /// `&`
    Ampersand,
    /// `|`
    Bar,
    /// `^`
    Caret,
    /// `~`
    Tilde,
    /// `!`
    Bang,
    /// `=`
    Equal,
    /// `;`
    Semicolon,
    /// `,`
    Comma,
    /// `.`
    Dot,
    /// `:`
    Colon,
    /// `@`
    At,
}

/// The words that every language reserves.
pub static WORDS: [Word; 122] = [
    Word::Module,
    Word::Top,
    Word::Bool,
    Word::Logic,
    Word::Int,
    Word::Uint,
    Word::Lv,
    Word::Time,
    Word::Process,
    Word::Payload,
    Word::True,
    Word::False,
    Word::In,
    Word::Out,
    Word::FifoIn,
    Word::FifoOut,
    Word::MutexPort,
    Word::SemaphorePort,
    Word::Signal,
    Word::Buffer,
    Word::Many,
    Word::Resolved,
    Word::Clock,
    Word::Period,
    Word::High,
    Word::Start,
    Word::Fifo,
    Word::Size,
    Word::Mutex,
    Word::Event,
    Word::Keeper,
    Word::Semaphore,
    Word::Memory,
    Word::Var,
    Word::Zero,
    Word::AllBound,
    Word::Export,
    Word::Initiator,
    Word::Pass,
    Word::Bw,
    Word::Target,
    Word::Bt,
    Word::Fw,
    Word::Inst,
    Word::Bind,
    Word::To,
    Word::Func,
    Word::Thread,
    Word::Method,
    Word::DontInitialize,
    Word::Inout,
    Word::Sensitive,
    Word::If,
    Word::Else,
    Word::While,
    Word::Guard,
    Word::Unwind,
    Word::Try,
    Word::Catch,
    Word::Call,
    Word::Read,
    Word::NbRead,
    Word::NbWrite,
    Word::Trylock,
    Word::Unlock,
    Word::SemTrywait,
    Word::NbTransport,
    Word::Write,
    Word::Print,
    Word::Notify,
    Word::Delta,
    Word::After,
    Word::Cancel,
    Word::Wait,
    Word::NextTrigger,
    Word::Lock,
    Word::SemWait,
    Word::Post,
    Word::Make,
    Word::Acquire,
    Word::Release,
    Word::Carry,
    Word::BTransport,
    Word::QkGlobal,
    Word::QkInc,
    Word::QkSet,
    Word::QkReset,
    Word::QkSync,
    Word::Spawn,
    Word::Suspend,
    Word::Resume,
    Word::Disable,
    Word::Enable,
    Word::Kill,
    Word::Reset,
    Word::ThrowIt,
    Word::Throw,
    Word::Return,
    Word::Stop,
    Word::SelfProcess,
    Word::For,
    Word::Any,
    Word::All,
    Word::Now,
    Word::Concat,
    Word::ReadCommand,
    Word::WriteCommand,
    Word::IgnoreCommand,
    Word::OkResponse,
    Word::IncompleteResponse,
    Word::GenericResponse,
    Word::AddressResponse,
    Word::CommandResponse,
    Word::BurstResponse,
    Word::ByteEnableResponse,
    Word::BeginReq,
    Word::EndReq,
    Word::BeginResp,
    Word::EndResp,
    Word::Accepted,
    Word::Updated,
    Word::Completed,
];

/// The words that language 2 reserves besides.
pub static LATER_WORDS: [Word; 3] = [Word::Language, Word::Resolution, Word::Descendants];

/// Every symbol, those of two bytes first.
pub static SYMBOLS: [Symbol; 33] = [
    Symbol::LessEqual,
    Symbol::GreaterEqual,
    Symbol::EqualEqual,
    Symbol::NotEqual,
    Symbol::ShiftLeft,
    Symbol::ShiftRight,
    Symbol::AndAnd,
    Symbol::OrOr,
    Symbol::Arrow,
    Symbol::LeftBrace,
    Symbol::RightBrace,
    Symbol::LeftParen,
    Symbol::RightParen,
    Symbol::LeftBracket,
    Symbol::RightBracket,
    Symbol::Less,
    Symbol::Greater,
    Symbol::Plus,
    Symbol::Minus,
    Symbol::Star,
    Symbol::Slash,
    Symbol::Percent,
    Symbol::Ampersand,
    Symbol::Bar,
    Symbol::Caret,
    Symbol::Tilde,
    Symbol::Bang,
    Symbol::Equal,
    Symbol::Semicolon,
    Symbol::Comma,
    Symbol::Dot,
    Symbol::Colon,
    Symbol::At,
];

/// How a reserved word is written.
pub fn word_text(word: Word) -> &'static str
    ensures { result.now ≡ spec.word_text word }
{
    match word {
        Word::Module => "module",
        Word::Top => "top",
        Word::Bool => "bool",
        Word::Logic => "logic",
        Word::Int => "int",
        Word::Uint => "uint",
        Word::Lv => "lv",
        Word::Time => "time",
        Word::Process => "process",
        Word::Payload => "payload",
        Word::True => "true",
        Word::False => "false",
        Word::In => "in",
        Word::Out => "out",
        Word::FifoIn => "fifo_in",
        Word::FifoOut => "fifo_out",
        Word::MutexPort => "mutex_port",
        Word::SemaphorePort => "semaphore_port",
        Word::Signal => "signal",
        Word::Buffer => "buffer",
        Word::Many => "many",
        Word::Resolved => "resolved",
        Word::Clock => "clock",
        Word::Period => "period",
        Word::High => "high",
        Word::Start => "start",
        Word::Fifo => "fifo",
        Word::Size => "size",
        Word::Mutex => "mutex",
        Word::Event => "event",
        Word::Keeper => "keeper",
        Word::Semaphore => "semaphore",
        Word::Memory => "memory",
        Word::Var => "var",
        Word::Zero => "zero",
        Word::AllBound => "all_bound",
        Word::Export => "export",
        Word::Initiator => "initiator",
        Word::Pass => "pass",
        Word::Bw => "bw",
        Word::Target => "target",
        Word::Bt => "bt",
        Word::Fw => "fw",
        Word::Inst => "inst",
        Word::Bind => "bind",
        Word::To => "to",
        Word::Func => "func",
        Word::Thread => "thread",
        Word::Method => "method",
        Word::DontInitialize => "dont_initialize",
        Word::Inout => "inout",
        Word::Sensitive => "sensitive",
        Word::If => "if",
        Word::Else => "else",
        Word::While => "while",
        Word::Guard => "guard",
        Word::Unwind => "unwind",
        Word::Try => "try",
        Word::Catch => "catch",
        Word::Call => "call",
        Word::Read => "read",
        Word::NbRead => "nb_read",
        Word::NbWrite => "nb_write",
        Word::Trylock => "trylock",
        Word::Unlock => "unlock",
        Word::SemTrywait => "sem_trywait",
        Word::NbTransport => "nb_transport",
        Word::Write => "write",
        Word::Print => "print",
        Word::Notify => "notify",
        Word::Delta => "delta",
        Word::After => "after",
        Word::Cancel => "cancel",
        Word::Wait => "wait",
        Word::NextTrigger => "next_trigger",
        Word::Lock => "lock",
        Word::SemWait => "sem_wait",
        Word::Post => "post",
        Word::Make => "make",
        Word::Acquire => "acquire",
        Word::Release => "release",
        Word::Carry => "carry",
        Word::BTransport => "b_transport",
        Word::QkGlobal => "qk_global",
        Word::QkInc => "qk_inc",
        Word::QkSet => "qk_set",
        Word::QkReset => "qk_reset",
        Word::QkSync => "qk_sync",
        Word::Spawn => "spawn",
        Word::Suspend => "suspend",
        Word::Resume => "resume",
        Word::Disable => "disable",
        Word::Enable => "enable",
        Word::Kill => "kill",
        Word::Reset => "reset",
        Word::ThrowIt => "throw_it",
        Word::Throw => "throw",
        Word::Return => "return",
        Word::Stop => "stop",
        Word::SelfProcess => "self",
        Word::For => "for",
        Word::Any => "any",
        Word::All => "all",
        Word::Now => "now",
        Word::Concat => "concat",
        Word::ReadCommand => "READ",
        Word::WriteCommand => "WRITE",
        Word::IgnoreCommand => "IGNORE",
        Word::OkResponse => "OK",
        Word::IncompleteResponse => "INCOMPLETE",
        Word::GenericResponse => "GENERIC",
        Word::AddressResponse => "ADDRESS",
        Word::CommandResponse => "COMMAND",
        Word::BurstResponse => "BURST",
        Word::ByteEnableResponse => "BYTE_ENABLE",
        Word::BeginReq => "BEGIN_REQ",
        Word::EndReq => "END_REQ",
        Word::BeginResp => "BEGIN_RESP",
        Word::EndResp => "END_RESP",
        Word::Accepted => "ACCEPTED",
        Word::Updated => "UPDATED",
        Word::Completed => "COMPLETED",
        Word::Language => "language",
        Word::Resolution => "resolution",
        Word::Descendants => "descendants",
        Word::Fs => "fs",
    }
}

/// How a symbol is written.
pub fn symbol_text(symbol: Symbol) -> &'static str
    ensures { result.now ≡ spec.symbol_text symbol }
{
    match symbol {
        Symbol::LessEqual => "<=",
        Symbol::GreaterEqual => ">=",
        Symbol::EqualEqual => "==",
        Symbol::NotEqual => "!=",
        Symbol::ShiftLeft => "<<",
        Symbol::ShiftRight => ">>",
        Symbol::AndAnd => "&&",
        Symbol::OrOr => "||",
        Symbol::Arrow => "->",
        Symbol::LeftBrace => "{",
        Symbol::RightBrace => "}",
        Symbol::LeftParen => "(",
        Symbol::RightParen => ")",
        Symbol::LeftBracket => "[",
        Symbol::RightBracket => "]",
        Symbol::Less => "<",
        Symbol::Greater => ">",
        Symbol::Plus => "+",
        Symbol::Minus => "-",
        Symbol::Star => "*",
        Symbol::Slash => "/",
        Symbol::Percent => "%",
        Symbol::Ampersand => "&",
        Symbol::Bar => "|",
        Symbol::Caret => "^",
        Symbol::Tilde => "~",
        Symbol::Bang => "!",
        Symbol::Equal => "=",
        Symbol::Semicolon => ";",
        Symbol::Comma => ",",
        Symbol::Dot => ".",
        Symbol::Colon => ":",
        Symbol::At => "@",
    }
}

/// The first of these words that the bytes spell, if they spell one.
fn spelled(words: &[Word], bytes: &[u8]) -> Option<Word>
    ensures { result ≡ spec.spelled words.now bytes.now }
{
    for word in words {
        if word_text(*word).as_bytes() == bytes {
            return Some(*word);
        }
    }
    None
}

/// The word that these bytes spell of those that every language reserves, if they spell one.
pub fn word_of(bytes: &[u8]) -> Option<Word>
    ensures { result ≡ spec.word_of bytes.now }
{
    spelled(&WORDS, bytes)
}

/// The word that these bytes spell of those that language 2 reserves besides, if they spell one.
pub fn later_word_of(bytes: &[u8]) -> Option<Word>
    ensures { result ≡ spec.later_word_of bytes.now }
{
    spelled(&LATER_WORDS, bytes)
}
