// What the program `merge` of document 01 does: it reads messages one after another from standard input, receives them into an empty
// document, passes over refused ones, and prints the sheet. However long the input is, no more of it is held than 4,096 bytes.
#![tactic(auto)]

ghost use Rattle.std.specs.Prelude.{◌-◌, ◌≤◌, ◌<◌, length, take};
ghost use Rattle.meaning.specs.Receive.{new_terminal};
ghost use Rattle.stream.specs.Pieces.{CutInside};
ghost use Rattle.keeping.specs.Keeping.{Keeps};
ghost use Rattle.merge_run.specs.Promises.{Came, ReadOn, TookAll, KeepsMerged, SheetOf, Printable};

use keeping::{Document, Memory};
use std::io::{Error, Print, Read, Result, Stdin, Stdout};
use stream::Cut;

// The system's error number of a read that was interrupted before a byte came.
const EINTR: i32 = 4;

// The bytes that are read and not handed over; and how reading has ended, with the input or with an error, or None while it goes on.
struct Input {
    cut: Cut,
    end: Option<Result<()>>,
}

// What a read that has answered `got` comes to: so many bytes are held behind those that were held. If it is an error, reading has failed,
// unless its number tells that the read was interrupted.
fn came(buf: &[u8], held: Cut, got: Result<usize>) -> Input
    requires cut_inside { CutInside buf.now held }
    requires to_in_bounds { held.to < length buf.now }
    ensures { Came buf.now held got result }
{
    match got {
        Ok(0) => Input {
            cut: held,
            end: Some(Ok(())),
        },
        Ok(n) => Input {
            cut: Cut {
                to: held.to + n.min(buf.len() - held.to),
                ..held
            },
            end: None,
        },
        Err(e) if e.raw_os_error() == Some(EINTR) => Input {
            cut: held,
            end: None,
        },
        Err(e) => Input {
            cut: held,
            end: Some(Err(e)),
        },
    }
}

// Reads on behind the bytes that are held. There is room, so a read of no bytes is the input's end. `came` is told the answer as std gives
// it. No contract ties what it is told to what was answered: the proof names it, and runs show it (docs/DECISIONS.md, 59).
fn read_on(input: &mut Stdin, buf: &mut [u8], c: Cut) -> Input
    requires cut_inside { CutInside buf.old c }
    requires from_in_bounds { c.to - c.from < length buf.old }
    ensures { ReadOn buf.old c result buf.new }
{
    let held = stream::make_room(buf, c);
    let got = input.read(&mut buf[held.to..]);
    came(buf, held, got)
}

// Receives all messages of standard input into a new terminal: read by read, to the input's end, to a failure, or until 2^64 - 1 reads are
// made. A proved loop has to end, and nothing says that the input does, so the turns are as many as no run uses up; if one did, it would
// count as interrupted.
fn receive_all(input: &mut Stdin, m: &mut Memory, buf: &mut [u8]) -> Result<()>
    requires keeps { Keeps m.old new_terminal }
    requires in_bounds { 468 < length buf.old }
    ensures { TookAll m.old buf.old result m.new }
{
    let mut cut = Cut {
        from: 0,
        to: 0,
        passing: false,
    };
    for _ in 0..u64::MAX {
        let Input { cut: held, end } = read_on(input, buf, cut);
        cut = feed::take_in(m, buf, held, end.is_some());
        if let Some(answer) = end {
            return answer;
        }
    }
    Err(Error::from_raw_os_error(EINTR))
}

// Writes the sheet into a buffer, and answers how many bytes it has. No sheet is longer than 65,536 bytes (`theorems`, `Sizes`).
fn whole_sheet(d: &Document, buf: &mut [u8]) -> usize
    requires keeps_merged { KeepsMerged d.now }
    requires in_bounds { 65536 ≤ length buf.old }
    ensures upper_bound { result ≤ length buf.new }
    ensures sheet_of { SheetOf d.now (take result buf.new) }
{
    sheet::save(&d.tables, d.counts, d.seen, buf).unwrap_or(0)
}

// Hands bytes to standard output, and only such as `merge` prints of an input that was read to its end. No contract of `write_all` says
// what is written; an `Err` may leave a part of them written.
fn write_out(output: Stdout, bytes: &[u8]) -> Result<()>
    requires { Printable bytes.now }
{
    output.write_all(bytes)
}

// Prints the sheet.
fn print(output: Stdout, d: &Document) -> Result<()>
    requires { KeepsMerged d.now }
{
    let mut space = [0u8; 65536];
    let n = whole_sheet(d, &mut space);
    write_out(output, &space[..n])
}

// Reads standard input to its end and prints the sheet. If reading fails, or 2^64 - 1 reads don't come to the end, nothing is handed to
// standard output and the error is returned, as it is if writing fails. Proved: the bytes that are handed to `write_all` are the sheet of
// the terminal that has received the messages of the bytes that came, one after another. That these are the bytes of standard input, and
// that what is handed over is written, no contract of `std` says.
pub fn merge(mut input: Stdin, output: Stdout) -> Result<()> {
    let mut memory = terminal::new();
    let mut buf = [0u8; 4096];
    receive_all(&mut input, &mut memory, &mut buf)?;
    print(output, &memory.document)
}
