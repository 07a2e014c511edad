// Sessions of SANSE at two ends, from standard input. A record is an operation (S: start, W: wrap, U: unwrap), an end (a or b), how many full blocks
// are taken side by side (1 or 4), the lengths of two parts (two bytes each, the lowest first), the parts and 32 bytes. The parts are key and nothing,
// metadata and message, or metadata and cryptogram; the 32 bytes are the tag handed to unwrap. Written for each: the number, the count, the index and
// e; then a line of hexadecimal digits for the output, the tag, the accumulator and the mask.
#![tactic(auto)]

use sanse::Session;
use std::io::Read;
use steps::CallResult;

// What a record does.
#[derive(Clone, Copy)]
enum Operation {
    Start,
    Wrap,
    Unwrap,
}

// S for start, W for wrap, anything else for unwrap.
impl From<u8> for Operation {
    fn from(letter: u8) -> Self {
        match letter {
            b'S' => Operation::Start,
            b'W' => Operation::Wrap,
            _ => Operation::Unwrap,
        }
    }
}

// Which session a record is for.
#[derive(Clone, Copy)]
enum End {
    A,
    B,
}

// The letter a for the one end, anything else for the other.
impl From<u8> for End {
    fn from(letter: u8) -> Self {
        match letter {
            b'a' => End::A,
            _ => End::B,
        }
    }
}

// The start of a record: all but the parts and the tag.
#[derive(Clone, Copy)]
struct Header {
    operation: Operation,
    end: End,
    four: bool,
    first_len: u16,
    second_len: u16,
}

impl From<[u8; 7]> for Header {
    fn from(
        [
            operation,
            end,
            blocks,
            first_low,
            first_high,
            second_low,
            second_high,
        ]: [u8; 7],
    ) -> Self {
        Header {
            operation: Operation::from(operation),
            end: End::from(end),
            four: blocks == b'4',
            first_len: u16::from_le_bytes([first_low, first_high]),
            second_len: u16::from_le_bytes([second_low, second_high]),
        }
    }
}

// A number and what follows it.
fn print_number(rt: &impl Print, n: u32, after: &str) {
    let _ = print!(rt; "{n}{after}");
}

// What a call gave, with its output and its tag.
fn show(rt: &impl Print, r: CallResult<Session>, out: &[u8], tag: &[u8]) {
    let s = r.left;
    let d = s.history;
    print_number(rt, r.number, " ");
    print_number(rt, r.count, " ");
    print_number(rt, d.index, " ");
    print_number(rt, u32::from(s.toggle), "\n");
    hexline::print_line(rt, out);
    hexline::print_line(rt, tag);
    hexline::print_line(rt, &state::to_bytes(&d.acc));
    hexline::print_line(rt, &state::to_bytes(&d.mask));
}

// Reads the parts and the tag of a record and carries it out on a session, which it gives as it is afterwards.
fn after(rt: &impl Print, input: &mut impl Read, header: Header, s: Session) -> Session {
    let mut first = [0; 65536];
    let mut second = [0; 65536];
    let mut out = [0; 65536];
    let mut tag = [0; 32];
    let first = &mut first[..usize::from(header.first_len)];
    let second = &mut second[..usize::from(header.second_len)];
    let out = &mut out[..usize::from(header.second_len)];
    hexline::read_full(input, first);
    hexline::read_full(input, second);
    hexline::read_full(input, &mut tag);
    let r = match header.operation {
        Operation::Start => sanse::start(first),
        Operation::Wrap => sanse::wrap(s, first, second, out, &mut tag, header.four),
        Operation::Unwrap => sanse::unwrap(s, first, second, &tag, out, header.four),
    };
    match header.operation {
        Operation::Start => show(rt, r, b"", b""),
        Operation::Wrap | Operation::Unwrap => show(rt, r, out, &tag),
    }
    r.left
}

fn main(rt: HostRuntime) {
    let mut input = rt.stdin();
    let mut a = sanse::start(b"").left;
    let mut b = a;
    for _ in 0..4096 {
        let mut head = [0; 7];
        if hexline::read_full(&mut input, &mut head) < 7 {
            return;
        }
        let header = Header::from(head);
        let session = match header.end {
            End::A => &mut a,
            End::B => &mut b,
        };
        *session = after(&rt, &mut input, header, *session);
    }
}
