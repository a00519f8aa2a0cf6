ghost use Rattle.std.specs.Prelude.{◌≡◌, ◌+◌, ◌≤◌, ◌<◌, ◌++◌, length, take, drop};
ghost use Rattle.std.specs.Fmt.{decimal};
ghost use Rattle.kdg_prog.specs.Status.{exit_code, fault_text, status_of_fault};

use kdg_text::Fault;

/// How a run of the program ended.
#[derive(Clone, Copy, Debug, PartialEq, Eq)]
pub enum Status {
    /// The print was written whole.
    Ok,
    /// The word at this place is the first bad one.
    Usage { word: u32 },
    /// The input has a fault of this kind on this line.
    BadInput { line: u64, kind: u8 },
    /// The input has more of something than a bound allows.
    TooLarge { line: u64, bound: u64 },
    /// More tasks than the limit were created.
    Budget { created: u64, limit: u64 },
    /// The source of the input failed.
    ReadFault,
    /// The sink of the print failed.
    WriteFault,
    /// No memory was to be had.
    NoMemory,
}

impl Status {
    /// The status for a fault of the input. A fault that goes beyond a limit has one above 0.
    pub(crate) fn of_fault(fault: &Fault) -> Status
        ensures { result ≡ status_of_fault fault.now }
    {
        match *fault {
            Fault {
                line,
                kind,
                bound: 0,
            } => Status::BadInput { line, kind },
            Fault { line, bound, .. } => Status::TooLarge { line, bound },
        }
    }

    /// The exit code of the program.
    pub fn code(&self) -> u8
        ensures { result ≡ exit_code self.now }
    {
        match self {
            Status::Ok => 0,
            Status::Usage { .. } => 2,
            Status::BadInput { .. } => 3,
            Status::TooLarge { .. } => 4,
            Status::Budget { .. } => 5,
            Status::ReadFault => 6,
            Status::WriteFault => 7,
            Status::NoMemory => 8,
        }
    }
}

/// Puts the line that tells a user of the status at the front of `line`, without a line feed, and
/// answers its length, which is 0 for `Status::Ok`. The bytes behind it stay as they were.
#[tactic(auto, using(crate::proofs::Digits::length_decimal))]
pub fn fault_line(status: &Status, line: &mut [u8; 64]) -> usize
    ensures len { result ≡ length (fault_text status.now) }
    ensures within { result < 64 }
    ensures text { line.new ≡ fault_text status.now ++ drop result line.old }
{
    match *status {
        Status::Ok => 0,
        Status::Usage { word } => {
            let end = put(line, 0, b"usage: word ");
            put_number(line, end, word.into())
        }
        Status::BadInput { line: number, kind } => {
            let end = put(line, 0, b"bad input: line ");
            let end = put_number(line, end, number);
            let end = put(line, end, b": fault ");
            put_number(line, end, kind.into())
        }
        Status::TooLarge { bound, .. } => {
            let end = put(line, 0, b"too large: limit ");
            put_number(line, end, bound)
        }
        Status::Budget { limit, .. } => {
            let end = put(line, 0, b"budget: more than ");
            let end = put_number(line, end, limit);
            put(line, end, b" tasks")
        }
        Status::ReadFault => put(line, 0, b"read fault"),
        Status::WriteFault => put(line, 0, b"write fault"),
        Status::NoMemory => put(line, 0, b"no memory"),
    }
}

/// Puts a piece at a place of the line, and answers the place behind it.
fn put(line: &mut [u8; 64], at: usize, piece: &[u8]) -> usize
    requires { at + length piece.now ≤ 64 }
    ensures end { result ≡ at + length piece.now }
    ensures text { line.new ≡ take at line.old ++ piece.now ++ drop result line.old }
{
    let end = at + piece.len();
    line[at..end].copy_from_slice(piece);
    end
}

/// Puts the decimal digits of a number at a place of the line, and answers the place behind them.
fn put_number(line: &mut [u8; 64], at: usize, number: u64) -> usize
    requires { at + length (decimal number) ≤ 64 }
    ensures end { result ≡ at + length (decimal number) }
    ensures text { line.new ≡ take at line.old ++ decimal number ++ drop result line.old }
{
    let last = if number < 10 {
        at
    } else {
        put_number(line, at, number / 10)
    };
    line[last] = b'0' + (number % 10) as u8;
    last + 1
}
