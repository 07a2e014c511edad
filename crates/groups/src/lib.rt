// A call for one group of the office's table, by value: the group's own record goes in and comes back. The record is the group's session and,
// beside it, its own day's count; the day's allowance is handed to each call. A call for an envelope has its header under the tag (document 02,
// request 7); whether the header is the call's own, check 1, is the table's to ask. `four` is whether full blocks are taken four side by side (request 10): it
// alters nothing but the time.
#![tactic(auto)]

ghost use Rattle.std.specs.Prelude.{◌≡◌, ◌+◌, ◌≤◌, length};
ghost use Rattle.refusals.specs.Numbers.{number_given};
ghost use Rattle.modes.specs.Mode.{sanse_count};
ghost use Rattle.modes.specs.Rules.{growth, first_check_of};
ghost use Rattle.sanse.specs.Session.{handed, handed_for};
ghost use Rattle.groups.specs.Groups.{new_day, above_allowance, then10, wrap_on_day, unwrap_on_day, open_on_day, record_of, group_opening_result, group_result};

use refusals::Refusal;
use sanse::Session;
use steps::{CallResult, Lengths};

// The most bytes that a key has.
const LONGEST_KEY: usize = 47;

// A group's record: its session, and the permutations counted for the group since the day began, which are no part of the session.
#[repr(C)]
#[derive(Clone, Copy)]
pub struct Record {
    pub session: Session,
    pub count: u32,
}

// ---- the day

// The record when a day begins: the count is 0, and the session stays.
pub fn new_day(r: Record) -> Record
    ensures { record_of result ≡ new_day (record_of r) }
{
    Record { count: 0, ..r }
}

// Whether the group's count plus this call's count is above the allowance; in 64 bits, since both may be any numbers.
fn above_allowance(allowance: u32, spent: u32, count: u64) -> bool
    requires { count ≤ 65536 }
    ensures { result ≡ above_allowance allowance spent count }
{
    u64::from(allowance) < u64::from(spent) + count
}

// ---- checks 5 to 10

// The permutations of a call, by the lengths of the string of A and of the text: what it will count, before the work.
fn call_count(a: usize, m: usize) -> u64
    requires { (a ≤ 16401) × (m ≤ 16384) }
    ensures { (result ≡ sanse_count a m) × (result ≤ 65536) }
{
    let body = m / 48 + 5 + (m + 47) / 48;
    let all = if m == 0 {
        a / 48 + 3
    } else if a == 0 {
        body
    } else {
        a / 48 + 1 + body
    };
    all as u64
}

// The first of the checks 5 to 10 that a call meets: 9 and 10 by the length of A's string, 6 by that of the metadata.
fn check(r: Record, allowance: u32, n: Lengths) -> Result<(), Refusal>
    requires { n.string ≤ n.metadata + 17 }
    ensures { number_given result ≡ then10
        (first_check_of r.session.opened (r.session.history.index + growth n.string n.text) 32 n.metadata n.text n.tag n.out)
        (above_allowance allowance r.count (sanse_count n.string n.text)) }
{
    let s = r.session;
    steps::check(s.opened, s.history.index, 32, n)?;
    if above_allowance(allowance, r.count, call_count(n.string, n.text)) {
        return Err(Refusal::Allowance);
    }
    Ok(())
}

// ---- results

// What a lone call gave, with its count added to the group's.
fn charged(given: CallResult<Session>, allowance: u32, spent: u32) -> CallResult<Record>
    requires { spent + given.count ≤ allowance }
    ensures { result ≡ record { number = given.number; count = given.count; left = record { session = given.left; count = spent + given.count } } }
{
    let left = Record {
        session: given.left,
        count: spent + given.count,
    };
    CallResult {
        number: given.number,
        count: given.count,
        left,
    }
}

// ---- the calls

// Opens a group: a fresh session in the record, its count plus 1. The record stays as it was where 4 or 10 refuses.
pub fn open(r: Record, allowance: u32, key: &[u8]) -> CallResult<Record>
    ensures { group_opening_result result ≡ open_on_day allowance (record_of r) key.now }
{
    if key.len() < 16 || LONGEST_KEY < key.len() {
        return steps::refused(Refusal::BadKey, 0, r);
    }
    if above_allowance(allowance, r.count, 1) {
        return steps::refused(Refusal::Allowance, 0, r);
    }
    charged(sanse::start(key), allowance, r.count)
}

// Wraps a message for a group, where check 1 is not met: A is the header's bytes `head`, none for a call without an envelope, and then the
// metadata. Checks 5 to 10.
pub fn wrap_string(
    r: Record,
    allowance: u32,
    head: &[u8],
    metadata: &[u8],
    message: &[u8],
    out: &mut [u8],
    tag: &mut [u8],
    four: bool,
) -> CallResult<Record>
    requires { length head.now ≤ 17 }
    ensures { group_result result out.new tag.new
        ≡ wrap_on_day allowance (record_of r)
        (handed_for head.now metadata.now message.now out.old tag.old) }
{
    let lengths = Lengths {
        string: head.len() + metadata.len(),
        metadata: metadata.len(),
        text: message.len(),
        tag: tag.len(),
        out: out.len(),
    };
    if let Err(e) = check(r, allowance, lengths) {
        return steps::refused(e, 0, r);
    }
    let given = sanse::wrap_string(r.session, head, metadata, message, out, tag, four);
    charged(given, allowance, r.count)
}

// Unwraps a cryptogram for a group, where check 1 is not met, with A as in `wrap_string`. Checks 5 to 10, and 11, whose count is added to the
// group's.
pub fn unwrap_string(
    r: Record,
    allowance: u32,
    head: &[u8],
    metadata: &[u8],
    cryptogram: &[u8],
    tag: &[u8],
    out: &mut [u8],
    four: bool,
) -> CallResult<Record>
    requires { length head.now ≤ 17 }
    ensures { group_result result out.new tag.now
        ≡ unwrap_on_day allowance (record_of r)
        (handed_for head.now metadata.now cryptogram.now out.old tag.now) }
{
    let lengths = Lengths {
        string: head.len() + metadata.len(),
        metadata: metadata.len(),
        text: cryptogram.len(),
        tag: tag.len(),
        out: out.len(),
    };
    if let Err(e) = check(r, allowance, lengths) {
        return steps::refused(e, 0, r);
    }
    let given = sanse::unwrap_string(r.session, head, metadata, cryptogram, tag, out, four);
    charged(given, allowance, r.count)
}

// ---- calls without an envelope

// Wraps a message for a group. Checks 5 to 10.
pub fn wrap(
    r: Record,
    allowance: u32,
    metadata: &[u8],
    message: &[u8],
    out: &mut [u8],
    tag: &mut [u8],
    four: bool,
) -> CallResult<Record>
    ensures { group_result result out.new tag.new
        ≡ wrap_on_day allowance (record_of r) (handed metadata.now message.now out.old tag.old) }
{
    wrap_string(r, allowance, &[], metadata, message, out, tag, four)
}

// Unwraps a cryptogram for a group. Checks 5 to 10, and 11, whose count is added to the group's.
pub fn unwrap(
    r: Record,
    allowance: u32,
    metadata: &[u8],
    cryptogram: &[u8],
    tag: &[u8],
    out: &mut [u8],
    four: bool,
) -> CallResult<Record>
    ensures { group_result result out.new tag.now
        ≡ unwrap_on_day allowance (record_of r) (handed metadata.now cryptogram.now out.old tag.now) }
{
    unwrap_string(r, allowance, &[], metadata, cryptogram, tag, out, four)
}
