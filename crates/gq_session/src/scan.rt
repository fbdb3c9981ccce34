//! The scanner: a machine over bytes that finds where a statement ends.

ghost use Rattle.std.specs.Prelude.{◌≡◌, ◌≤◌, length};
ghost use Rattle.gq_session.specs.Feeding.{Feeds, scan_of};
ghost use Rattle.gq_session.specs.Scanning.{ends, next_state};

/// In what the scanner stands.
#[derive(Clone, Copy, Debug, PartialEq, Eq)]
pub enum State {
    /// In no string, quoted name or comment.
    Plain,
    /// Behind a slash that may begin a comment.
    Slash,
    /// In a string in single quotes.
    Single,
    /// Behind a backslash in such a string.
    SingleEscape,
    /// In a string in double quotes.
    Double,
    /// Behind a backslash in such a string.
    DoubleEscape,
    /// In a quoted name.
    Quoted,
    /// In a comment that the line ends.
    Line,
    /// In a comment that `*/` ends.
    Block,
    /// Behind a star in such a comment.
    BlockStar,
}

// The state behind a byte that stands in no string, quoted name or comment.
fn from_plain(byte: u8) -> State
    ensures { result ≡ next_state State.Plain byte }
{
    match byte {
        b'\'' => State::Single,
        b'"' => State::Double,
        b'`' => State::Quoted,
        b'/' => State::Slash,
        _ => State::Plain,
    }
}

// The state behind a byte that stands in a string in single quotes.
fn from_single(byte: u8) -> State
    ensures { result ≡ next_state State.Single byte }
{
    match byte {
        b'\'' => State::Plain,
        b'\\' => State::SingleEscape,
        _ => State::Single,
    }
}

// The state behind a byte that stands in a string in double quotes.
fn from_double(byte: u8) -> State
    ensures { result ≡ next_state State.Double byte }
{
    match byte {
        b'"' => State::Plain,
        b'\\' => State::DoubleEscape,
        _ => State::Double,
    }
}

impl State {
    /// The state behind the byte.
    pub fn next(self, byte: u8) -> State
        ensures { result ≡ next_state self byte }
    {
        match self {
            State::Plain => from_plain(byte),
            State::Slash => match byte {
                b'/' => State::Line,
                b'*' => State::Block,
                _ => from_plain(byte),
            },
            State::Single => from_single(byte),
            State::SingleEscape => State::Single,
            State::Double => from_double(byte),
            State::DoubleEscape => State::Double,
            State::Quoted => {
                if byte == b'`' {
                    State::Plain
                } else {
                    State::Quoted
                }
            }
            State::Line => {
                if byte == b'\n' || byte == b'\r' {
                    State::Plain
                } else {
                    State::Line
                }
            }
            State::Block => {
                if byte == b'*' {
                    State::BlockStar
                } else {
                    State::Block
                }
            }
            State::BlockStar => match byte {
                b'/' => State::Plain,
                b'*' => State::BlockStar,
                _ => State::Block,
            },
        }
    }

    /// Whether the byte ends a statement here.
    pub fn ends(self, byte: u8) -> bool
        ensures { result ≡ ends self byte }
    {
        match self {
            State::Plain | State::Slash => byte == b';',
            _ => false,
        }
    }
}

/// How far a scanner has come in the input.
#[derive(Clone, Copy, Debug)]
pub struct Scan {
    pub state: State,
    /// The bytes of a statement that are held at the front of the buffer.
    pub filled: usize,
    /// The bytes taken so far.
    pub total: usize,
}

/// What a byte did.
#[derive(Clone, Copy, Debug, PartialEq, Eq)]
pub enum Fed {
    /// It belongs to a statement that has not ended.
    Kept,
    /// It ended a statement of so many bytes, which stands at the front of the buffer.
    Ended(usize),
    /// It passed a limit: one byte more than the buffer has room for, or than the input may have.
    TooLong,
}

impl Scan {
    /// A scanner before the first byte.
    pub fn new() -> Scan
        ensures { result ≡ record { state = State.Plain; filled = 0; total = 0 } }
    {
        Scan {
            state: State::Plain,
            filled: 0,
            total: 0,
        }
    }

    /// Takes one byte of an input of at most `most` bytes. The buffer's length is the longest that a statement may be; a
    /// statement that ended stands in the buffer until the next call.
    pub fn feed(&mut self, statement: &mut [u8], most: usize, byte: u8) -> Fed
        requires { self.old.filled ≤ length statement.old }
        ensures fits { self.new.filled ≤ length statement.new }
        ensures feeds { Feeds (length statement.old) most (scan_of self.old statement.old) byte
            (scan_of self.new statement.new) statement.new result }
    {
        if self.total >= most {
            return Fed::TooLong;
        }
        if self.state.ends(byte) {
            let count = self.filled;
            self.state = State::Plain;
            self.filled = 0;
            self.total += 1;
            return Fed::Ended(count);
        }
        if self.filled >= statement.len() {
            return Fed::TooLong;
        }
        statement[self.filled] = byte;
        self.filled += 1;
        self.total += 1;
        self.state = self.state.next(byte);
        Fed::Kept
    }
}
