// The program `replay`: answers the calls of a replay script (docs/REPLAY.md), read from standard input. The gate compares what it prints
// with the second implementation's answers.
#![tactic(auto)]

ghost use Rattle.std.specs.Prelude.{◌≤◌, ◌<◌, ◌≡◌, true};
ghost use Rattle.stream.specs.Pieces.{CutInside};

use keeping::Memory;
use stream::Cut;

// Where the script is read and where the answers are written.
const STDIN_FILENO: i32 = 0;

const STDOUT_FILENO: i32 = 1;

// The bytes of the script that are held, and whether no byte follows them.
#[derive(Clone, Copy)]
struct Input {
    cut: Cut,
    ended: bool,
}

// Reads on behind the bytes that are held, until the buffer is full or the script ends.
fn read_on(buf: &mut [u8], c: Cut) -> Input
    requires { CutInside buf.old c }
    ensures { CutInside buf.new result.cut }
{
    let held = stream::make_room(buf, c);
    let to = held.to;
    let n = io::read_full(STDIN_FILENO, &mut buf[to..]);
    let end = to + n;
    let cut = Cut {
        from: held.from,
        to: end,
        passing: held.passing,
    };
    Input {
        cut,
        ended: end < buf.len(),
    }
}

// The same, unless a call is held whole: none takes more than 65,600 bytes.
fn hold_call(buf: &mut [u8], c: Cut, ended: bool) -> Input
    requires { CutInside buf.old c }
    ensures { CutInside buf.new result.cut }
{
    if ended {
        return Input { cut: c, ended };
    }
    if c.to - c.from < 65600 {
        return read_on(buf, c);
    }
    Input { cut: c, ended }
}

// Whether the next call stands behind this one.
fn goes_on(at: usize, next: usize, to: usize) -> bool
    ensures { result ≡ true → (at < next) × (next ≤ to) }
{
    at < next && next <= to
}

// At the end of a script no byte is left.
fn say_end(at: usize, to: usize) {
    if at < to {
        io::write_all(STDOUT_FILENO, b"no such call\n");
    }
}

// Answers the calls of a script, from an empty terminal on. A proved loop has to end, and nothing says that a script does, so the turns are
// as many as no run uses up.
fn play(m: &mut Memory, buf: &mut [u8]) {
    let mut cut = Cut {
        from: 0,
        to: 0,
        passing: false,
    };
    let mut ended = false;
    for _ in 0..u64::MAX {
        let r = hold_call(buf, cut, ended);
        let c = r.cut;
        ended = r.ended;
        let at = c.from;
        let to = c.to;
        let Some(next) = replay_calls::answer(m, &buf[..to], at) else {
            say_end(at, to);
            return;
        };
        if !goes_on(at, next, to) {
            say_end(at, to);
            return;
        }
        cut = Cut {
            from: next,
            to,
            passing: false,
        };
    }
}

fn main() {
    let mut m = terminal::new();
    let mut buf = [0u8; 131072];
    play(&mut m, &mut buf);
}
