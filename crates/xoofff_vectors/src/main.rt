// The deck function over the histories on standard input. A record is a header of six bytes and, but for O, so many bytes of data: K sets
// the key and an empty history; S appends the string of the data and the header's closing byte; O prints index, accumulator, mask and a run
// of the output, each on a line. The header: the letter, the closing byte, the length and the offset, the lowest byte first.
#![tactic(auto)]

ghost use Rattle.std.specs.Prelude.{◌≤◌, length};

use deck::{Closing, DeckState};
use std::io::Read;

// The most bytes of a record's data.
const ROOM: usize = 16401;

// What a record does.
#[derive(Clone, Copy)]
enum Operation {
    SetKey,
    Output { from: usize },
    Append { closing: u8 },
}

// A header: what is done, and how many bytes of data or of output there are.
#[derive(Clone, Copy)]
struct Header {
    operation: Operation,
    len: usize,
}

// K for the key, O for output, anything else for one more string.
impl From<[u8; 6]> for Header {
    fn from([letter, closing, len_low, len_high, from_low, from_high]: [u8; 6]) -> Self {
        Header {
            operation: match letter {
                b'K' => Operation::SetKey,
                b'O' => Operation::Output {
                    from: hexline::pair(from_low, from_high),
                },
                _ => Operation::Append { closing },
            },
            len: hexline::pair(len_low, len_high),
        }
    }
}

// The state of an empty history under a mask.
fn empty(mask: [u32; 12]) -> DeckState {
    DeckState {
        acc: [0; 12],
        mask,
        index: 0,
    }
}

// The lines of an O: the buffer is as long as the run of the output that is added to it.
fn print_output(rt: &impl Print, d: DeckState, from: usize, out: &mut [u8])
    requires { length out.old ≤ ROOM }
{
    let _ = println!(rt; "{}", d.index);
    hexline::print_line(rt, &state::to_bytes(&d.acc));
    hexline::print_line(rt, &state::to_bytes(&d.mask));
    if from <= 40000 {
        xoofff::expand(xoodoo::permute(d.acc), &d.mask, from, out);
    }
    hexline::print_line(rt, out);
}

// The state under a key, before the first string; a key that is too long changes nothing.
fn opening(d: DeckState, key: &[u8]) -> DeckState {
    if key.len() <= 47 {
        empty(xoofff::key_mask(key))
    } else {
        d
    }
}

// The state after one more string; none is taken with a closing byte of 0, or once the index is above its limit.
fn appended(d: DeckState, s: &[u8], closing: u8) -> DeckState
    requires { length s.now ≤ ROOM }
{
    match Closing::new(closing) {
        Some(closing) if d.index <= 1048576 => xoofff::compress(d, s, closing).state,
        _ => d,
    }
}

// The state after a record, with a buffer for its data; a record with more data is passed over.
fn after(
    rt: &impl Print,
    input: &mut impl Read,
    d: DeckState,
    header: Header,
    buffer: &mut [u8; ROOM],
) -> DeckState {
    if ROOM < header.len {
        return d;
    }
    let data = &mut buffer[..header.len];
    match header.operation {
        Operation::SetKey => {
            hexline::read_full(input, data);
            opening(d, data)
        }
        Operation::Output { from } => {
            print_output(rt, d, from, data);
            d
        }
        Operation::Append { closing } => {
            hexline::read_full(input, data);
            appended(d, data, closing)
        }
    }
}

fn main(rt: HostRuntime) {
    let mut input = rt.stdin();
    let mut d = empty([0; 12]);
    for _ in 0..4096 {
        let mut head = [0; 6];
        if hexline::read_full(&mut input, &mut head) < 6 {
            return;
        }
        d = after(&rt, &mut input, d, Header::from(head), &mut [0; ROOM]);
    }
}
