// The types that every layer returns: what each public operation answers, and eight counters.
// Document 01, "What is answered": the number of each case and what comes with it are defined in specs/Answers.antt.
#![tactic(auto)]

ghost use Rattle.std.specs.Prelude.{◌≡◌, Err};
ghost use Rattle.meaning.specs.Answers.{receipt_answer, edited_answer, reading_answer};

// For each terminal a counter: `seen` and `deps`. Passed by value, compared and raised entry by entry.
#[derive(Clone, Copy)]
pub struct Counters {
    pub at: [u32; 8],
}

// What a message that isn't refused comes to: it is applied, and the waiting ones are settled; or it waits.
#[derive(Clone, Copy)]
pub enum Received {
    Applied { applied: u64, dropped: u64 },
    Waiting,
}

// The refusals of a message.
#[derive(Clone, Copy, PartialEq, Eq)]
pub enum ReceiveError {
    Layout,
    Counter,
    Repeat,
    OwnDeps,
    WaitsAlready,
    WaitingFull,
    NoElement,
    NotSmaller,
    NoRoom,
}

// What receiving a message answers.
pub type Receipt = Result<Received, ReceiveError>;

// A local edit that was applied; `written` is the size of its message.
#[derive(Clone, Copy)]
pub struct Made {
    pub applied: u64,
    pub dropped: u64,
    pub written: usize,
}

// The refusals of a local edit.
#[derive(Clone, Copy, PartialEq, Eq)]
pub enum EditError {
    Layout,
    NoElement,
    NotSmaller,
    NoRoom,
    LastCounter,
    ShortBuffer { needed: usize },
}

// What a local edit answers.
pub type Edited = Result<Made, EditError>;

// The buffer is too short; so many bytes are needed.
#[derive(Clone, Copy, PartialEq, Eq)]
pub struct ShortBuffer {
    pub needed: usize,
}

// What saving answers: how many bytes were written.
pub type Saved = Result<usize, ShortBuffer>;

// The first line that breaks a rule.
#[derive(Clone, Copy, PartialEq, Eq)]
pub struct BadLine {
    pub line: usize,
}

// What loading answers.
pub type Loaded = Result<(), BadLine>;

// The refusals of a read.
#[derive(Clone, Copy, PartialEq, Eq)]
pub enum ReadError {
    Layout,
    NotThere,
    ShortBuffer { needed: usize },
}

// What each of the three reads answers, keys, values and element: how many bytes were written.
pub type Reading = Result<usize, ReadError>;

impl ReceiveError {
    // Document 01's number.
    pub fn number(self) -> u64
        ensures { result ≡ (receipt_answer (Err self)).number }
    {
        match self {
            ReceiveError::Layout => 1,
            ReceiveError::Counter => 2,
            ReceiveError::Repeat => 3,
            ReceiveError::OwnDeps => 4,
            ReceiveError::WaitsAlready => 6,
            ReceiveError::WaitingFull => 7,
            ReceiveError::NoElement => 8,
            ReceiveError::NotSmaller => 9,
            ReceiveError::NoRoom => 10,
        }
    }
}

impl EditError {
    // Document 01's number.
    pub fn number(self) -> u64
        ensures { result ≡ (edited_answer (Err self)).number }
    {
        match self {
            EditError::Layout => 1,
            EditError::NoElement => 8,
            EditError::NotSmaller => 9,
            EditError::NoRoom => 10,
            EditError::LastCounter => 11,
            EditError::ShortBuffer { needed: _ } => 13,
        }
    }
}

impl ReadError {
    // Document 01's number.
    pub fn number(self) -> u64
        ensures { result ≡ (reading_answer (Err self)).number }
    {
        match self {
            ReadError::Layout => 1,
            ReadError::ShortBuffer { needed: _ } => 13,
            ReadError::NotThere => 14,
        }
    }
}
