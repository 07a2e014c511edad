// Permutations and rollings of the states on standard input, each on a line of hexadecimal digits. A record is an operation (one byte),
// how often it is done (four bytes, the lowest first) and a state (48 bytes).
#![tactic(auto)]

use std::io::Read;

// What is done to a state.
#[derive(Clone, Copy)]
enum Operation {
    Permute,
    RollIn,
    RollOut,
}

// P for the permutation, C for input rolling, anything else for output rolling.
impl From<u8> for Operation {
    fn from(letter: u8) -> Self {
        match letter {
            b'P' => Operation::Permute,
            b'C' => Operation::RollIn,
            _ => Operation::RollOut,
        }
    }
}

impl Operation {
    // The state after one operation.
    fn once(self, s: [u32; 12]) -> [u32; 12] {
        match self {
            Operation::Permute => xoodoo::permute(s),
            Operation::RollIn => rolling::roll_in(s),
            Operation::RollOut => rolling::roll_out(s),
        }
    }

    // The state after so many.
    fn repeated(self, times: u32, s: [u32; 12]) -> [u32; 12] {
        (0..times).fold(s, |t, _| self.once(t))
    }
}

// A record.
#[derive(Clone, Copy)]
struct Record {
    operation: Operation,
    times: u32,
    state: [u32; 12],
}

impl Record {
    // The next record, if there is a whole one.
    fn read(input: &mut impl Read) -> Option<Self> {
        let mut head = [0; 5];
        let mut bytes = [0; 48];
        if hexline::read_full(input, &mut head) < 5 || hexline::read_full(input, &mut bytes) < 48 {
            return None;
        }
        let [letter, a, b, c, d] = head;
        Some(Record {
            operation: Operation::from(letter),
            times: u32::from_le_bytes([a, b, c, d]),
            state: state::from_bytes(&bytes),
        })
    }

    // The state after all of it.
    fn answer(self) -> [u8; 48] {
        state::to_bytes(&self.operation.repeated(self.times, self.state))
    }
}

fn main(rt: HostRuntime) {
    let mut input = rt.stdin();
    for _ in 0..4096 {
        let Some(record) = Record::read(&mut input) else {
            return;
        };
        hexline::print_line(&rt, &record.answer());
    }
}
