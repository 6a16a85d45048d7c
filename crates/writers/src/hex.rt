// Bytes in hex.
ghost use Rattle.std.specs.Prelude.{ℕ, ◌≡◌, ◌*◌, ◌≤◌, ◌<◌, length};
ghost use Rattle.meaning.specs.Text.{hex_digit, hex};
ghost use Rattle.decimal.specs.Take.{Wrote};
ghost use Rattle.writers.specs.Sized.{Sized};
ghost use Rattle.writers.specs.Words.{byte_of, bytes_of};

use crate::Text;

// The first `len` of the bytes that the words hold. What `readers` take is a `Packed` of theirs: reading and writing don't stand on each
// other.
#[derive(Clone, Copy)]
pub struct Hex<const W: usize> {
    pub words: [u64; W],
    pub len: u64,
}

// The first `len` of the bytes that lent words hold, however many words these are.
#[derive(Clone, Copy)]
pub struct LentHex<'a> {
    pub words: &'a [u64],
    pub len: u64,
}

// The hex digits, lower case. A test of each digit in the place of this table made a key's writing 1.5 times as slow.
static DIGITS: [u8; 16] = *b"0123456789abcdef";

// A hex digit.
#[tactic(auto, using(crate::proofs::Bytes::digit_of_table))]
fn hex_digit(n: u8) -> u8
    requires { n < 16 }
    ensures { result ≡ hex_digit n }
{
    DIGITS[n as usize]
}

// Byte i of bytes that are held as words.
#[tactic(auto, using(crate::proofs::Bytes::byte_shifted))]
fn byte_of(words: &[u64], i: usize) -> u8
    requires { i < 8 * length words.now }
    ensures { result ≡ byte_of words.now i }
{
    let shift = 56 - 8 * (i % 8);
    ((words[i / 8] >> shift) % 256) as u8
}

// Writes the first n of the bytes that words hold, by places: of what an adapter of `iter_mut` or `chunks_mut` writes no clause tells.
fn put_bytes(buf: &mut [u8], words: &[u64], n: usize) -> usize
    requires { (n ≤ 8 * length words.now) × (length (hex (bytes_of words.now n)) ≤ length buf.old) }
    ensures { Wrote (hex (bytes_of words.now n)) buf.old buf.new result }
{
    for i in 0..n {
        let b = byte_of(words, i);
        buf[2 * i] = hex_digit(b / 16);
        buf[2 * i + 1] = hex_digit(b % 16);
    }
    2 * n
}

impl<const W: usize> Text for Hex<W> {
    ghost text = { λ x. hex (bytes_of x.words x.len) };

    ghost most = { λ x. 16 * W };

    ghost Valid = { λ x. x.len ≤ 8 * W };

    #[tactic(auto, using(crate::proofs::Bytes::size_hex))]
    fn size(&self) -> usize {
        2 * (self.len as usize)
    }

    fn put(&self, buf: &mut [u8]) -> usize {
        put_bytes(buf, &self.words, self.len as usize)
    }
}

impl<'a> Text for LentHex<'a> {
    ghost text = { λ x. hex (bytes_of x.words.now x.len) };

    ghost most = { λ x. 16 * length x.words.now };

    ghost Valid = { λ x. x.len ≤ 8 * length x.words.now };

    #[tactic(auto, using(crate::proofs::Bytes::size_hex))]
    fn size(&self) -> usize {
        2 * (self.len as usize)
    }

    fn put(&self, buf: &mut [u8]) -> usize {
        put_bytes(buf, self.words, self.len as usize)
    }
}
