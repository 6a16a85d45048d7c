// Reads the message on standard input a million times, and says whether each reading gave an operation: the program that bench/reads times.
#![tactic(auto)]

// Where the answer is written.
const STDOUT_FILENO: i32 = 1;

// One reading.
fn taken(s: &[u8]) -> bool {
    message::take_message(s).is_some()
}

fn main() {
    let mut buffer = [0u8; 1024];
    let n = io::read_full(0, &mut buffer);
    let s = &buffer[..n];
    for _ in 0..1000000 {
        if !taken(s) {
            io::write_all(STDOUT_FILENO, b"no message\n");
            return;
        }
    }
    io::write_all(STDOUT_FILENO, b"read\n");
}
