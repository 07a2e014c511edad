// Runs the crate `envelope` on the cases of standard input, and writes a line for each: scripts/envelope_vectors.py makes the cases and, by an
// implementation of its own, the lines that are expected. A case is a record of 24 bytes, numbers in it two bytes each, lowest first.
#![tactic(auto)]

ghost use Rattle.std.specs.Prelude.{◌<◌};

use envelope_write::WriteResult;
use std::io::Read;

// The room for the longest envelope, and some more.
const ROOM: usize = 33000;

// Record 0, bytes that are read: `head` of the bytes of the header (20 at most), and after them a string of the cases.
#[derive(Clone, Copy)]
struct Reading {
    head: u8,
    header: [u8; 20],
    rest: u16,
}

// Record 1, an envelope that is written: letter and group, the lengths of metadata, cryptogram and tag, which are parts of a string of the
// cases, and the length of the buffer.
#[derive(Clone, Copy)]
struct Writing {
    letter: u8,
    group: u16,
    metadata: u16,
    cryptogram: u16,
    tag: u16,
    room: u16,
}

// A case.
#[derive(Clone, Copy)]
enum Case {
    Reading(Reading),
    Writing(Writing),
}

// The number at a place of a case.
fn word(bytes: &[u8; 24], i: usize) -> u16
    requires { i < 23 }
{
    u16::from_le_bytes([bytes[i], bytes[i + 1]])
}

// Byte 0 says which record it is. Record 0 has `head` at 1, the header from 2 on and at 22 how many bytes follow it. Record 1 has the letter at 1,
// and its numbers from 2 on.
impl From<&[u8; 24]> for Case {
    fn from(bytes: &[u8; 24]) -> Self {
        if bytes[0] == 0 {
            let mut header = [0; 20];
            header.copy_from_slice(&bytes[2..22]);
            Case::Reading(Reading {
                head: bytes[1],
                header,
                rest: word(bytes, 22),
            })
        } else {
            Case::Writing(Writing {
                letter: bytes[1],
                group: word(bytes, 2),
                metadata: word(bytes, 4),
                cryptogram: word(bytes, 6),
                tag: word(bytes, 8),
                room: word(bytes, 10),
            })
        }
    }
}

// Byte j of the strings that the cases are made of.
fn pattern(j: usize) -> u8 {
    ((j % 251 * 7 + j / 251) % 256) as u8
}

// Fills a buffer with a string of the cases.
fn fill(out: &mut [u8]) {
    for (j, b) in out.iter_mut().enumerate() {
        *b = pattern(j);
    }
}

// A sum over all of the bytes in which each place counts.
fn checksum(s: &[u8]) -> u16 {
    s.iter().fold(0, |sum, b| {
        ((u32::from(sum) * 31 + u32::from(*b)) % 65521) as u16
    })
}

// Writes a number and a space.
fn put_number(rt: &impl Print, n: usize) {
    let _ = print!(rt; "{n} ");
}

// Reads the envelope at the start of some bytes, and writes number, letter, group, place (zeros where it is refused) and, for each of the three
// parts, its length and a sum over it.
fn put_read(rt: &impl Print, s: &[u8]) {
    let (number, letter, group, place) = match envelope::read_envelope(s) {
        Ok(e) => (0, e.letter, e.group, e.place),
        Err(e) => (u32::from(e), 0, 0, 0),
    };
    put_number(rt, number as usize);
    put_number(rt, usize::from(letter));
    put_number(rt, group as usize);
    put_number(rt, place);
    for part in [
        envelope::metadata(s),
        envelope::cryptogram(s),
        envelope::tag(s),
    ] {
        put_number(rt, part.len());
        put_number(rt, usize::from(checksum(part)));
    }
}

impl Reading {
    // Writes what is read from the bytes, where there is room for them.
    fn put(self, rt: &impl Print) {
        let mut bytes = [0; ROOM];
        let head = usize::from(self.head);
        let n = head + usize::from(self.rest);
        if bytes.len() < n {
            return;
        }
        bytes[..20].copy_from_slice(&self.header);
        fill(&mut bytes[head..]);
        put_read(rt, &bytes[..n]);
    }
}

impl Writing {
    // Writes an envelope to the first bytes of a buffer, where there is room for its parts; then writes number, length, a sum over the buffer, and
    // what is read from it.
    fn put(self, rt: &impl Print) {
        let mut source = [0; ROOM];
        let mut out = [0; ROOM];
        fill(&mut source);
        fill(&mut out[1..]);
        let a = usize::from(self.metadata);
        let c = usize::from(self.cryptogram) + 7;
        let t = usize::from(self.tag) + 11;
        let room = usize::from(self.room);
        if source.len() < a.max(c).max(t) || out.len() < room {
            return;
        }
        let w = WriteResult::from(envelope_write::write_envelope(
            self.letter,
            u32::from(self.group),
            &source[..a],
            &source[7..c],
            &source[11..t],
            &mut out[..room],
        ));
        put_number(rt, w.number as usize);
        put_number(rt, w.len);
        put_number(rt, usize::from(checksum(&out)));
        put_read(rt, &out);
    }
}

impl Case {
    // The next case, if there is a whole one.
    fn read(input: &mut impl Read) -> Option<Self> {
        let mut bytes = [0; 24];
        if hexline::read_full(input, &mut bytes) < 24 {
            None
        } else {
            Some(Case::from(&bytes))
        }
    }

    // Writes what comes of a case.
    fn put(self, rt: &impl Print) {
        match self {
            Case::Reading(case) => case.put(rt),
            Case::Writing(case) => case.put(rt),
        }
    }
}

fn main(rt: HostRuntime) {
    let mut input = rt.stdin();
    for _ in 0..u64::MAX {
        let Some(case) = Case::read(&mut input) else {
            return;
        };
        case.put(&rt);
        if println!(rt; "").is_err() {
            return;
        }
    }
}
