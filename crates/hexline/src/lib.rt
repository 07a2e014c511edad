// What the programs over test vectors share: bytes of standard input, bytes on standard output as lines of hexadecimal digits, and numbers of
// two bytes. Each byte's digits are written by a call of their own, and so is a newline. A write that fails is passed over, and a read that fails ends
// the input.
#![tactic(auto)]

ghost use Rattle.std.specs.Prelude.{◌≡◌, ◌+◌, ◌*◌, ◌<◌, ◌≤◌, length, Some};
ghost use Rattle.hexline.specs.Hex.{hex_of};

use std::fmt;
use std::io::Read;

// Reads until the buffer is full, the input ends or a read fails; the answer is how many bytes were put at the buffer's start.
pub fn read_full(input: &mut impl Read, buf: &mut [u8]) -> usize
    ensures { result ≤ length buf.new }
{
    // Counted by hand: a step goes as far as the read says, and `read_exact` would not say how far it came.
    let mut done = 0;
    while done < buf.len() {
        match input.read(&mut buf[done..]) {
            Ok(0) | Err(_) => break,
            Ok(n) => done += n,
        }
    }
    done
}

// Bytes as they are printed: two digits for each.
#[derive(Clone, Copy)]
struct Hex<'a>(&'a [u8]);

impl fmt::Display for Hex<'_> {
    ghost output = { λ h. Some (hex_of h.0.now) };

    fn fmt<W: fmt::Write>(&self, f: &mut fmt::Formatter<W>) -> fmt::Result {
        for &byte in self.0 {
            write!(f, "{byte:02x}")?;
        }
        Ok(())
    }
}

// Writes two digits for each byte; the answer is the number of bytes.
pub fn print_hex(rt: &impl Print, b: &[u8]) -> usize
    ensures { result ≡ length b.now }
{
    let mut n = 0;
    for &byte in b {
        let _ = print!(rt; "{}", Hex(&[byte]));
        n += 1;
    }
    n
}

// Writes two digits for each byte, and a newline; the answer is the number of bytes.
pub fn print_line(rt: &impl Print, b: &[u8]) -> usize
    ensures { result ≡ length b.now }
{
    let n = print_hex(rt, b);
    let _ = println!(rt; "");
    n
}

// A number of two bytes, the lowest first.
pub fn pair(low: u8, high: u8) -> usize
    ensures { (result ≡ low + 256 * high) × (result < 65536) }
{
    usize::from(u16::from_le_bytes([low, high]))
}
