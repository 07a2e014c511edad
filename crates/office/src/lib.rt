// The office's table: a lent run of 32 records, one for each group, each a session and the group's own day's count; the day's allowance is one
// for all groups, and handed to each call. A call reads one group's record, calls the function by value, and writes the record back. Table, group and
// allowance are handed apart, as C hands them (`pevghazo_wrap_group` and its neighbours): a struct would be made there only to be taken apart here.
// `four` is whether full blocks are taken four side by side (document 02, request 10): it alters nothing but the time, and no clause speaks of it.
#![tactic(auto)]

ghost use Rattle.std.specs.Prelude.{◌≡◌, position};
ghost use Rattle.sanse.specs.Session.{handed};
ghost use Rattle.groups.specs.Groups.{record_of};
ghost use Rattle.refusals.specs.Numbers.{number_given};
ghost use Rattle.office.specs.Table.{check_group, refused_answer, above_mark, table_of, day_result, table_result, opening_result, start_day_at, wrap_group_at, unwrap_group_at, open_group_at, nearly_full_at, nearly_full_result};

use groups::Record;
use refusals::Refusal;
use steps::Answer;

// The records of a table, and its highest group.
const GROUPS: usize = 32;

const HIGHEST_GROUP: usize = 31;

// ---- the day

// A day begins: a count of 0 in every record handed in, of any number, and the allowance that is given. It is never refused.
pub fn start_day(records: &mut [Record], allowance: u32) -> u32
    ensures { day_result result records.new ≡ start_day_at allowance (table_of records.old) }
{
    for r in records.iter_mut() {
        *r = groups::new_day(*r);
    }
    allowance
}

// ---- check 3

// Whether a table of some records has such a group.
pub fn check_group(records: usize, group: usize) -> Result<(), Refusal>
    ensures { number_given result ≡ check_group records group }
{
    if records != GROUPS || HIGHEST_GROUP < group {
        return Err(Refusal::BadGroup);
    }
    Ok(())
}

// Refused: nothing counted.
pub fn refused(e: Refusal) -> Answer
    ensures { result ≡ refused_answer e }
{
    Answer {
        number: u32::from(e),
        count: 0,
    }
}

// ---- calls for a group

// Opens a group: a fresh session in its record, and its count plus 1. The record stays as it was where the call is refused. Checks 3, 4 and 10.
pub fn open_group(table: &mut [Record], group: usize, allowance: u32, key: &[u8]) -> Answer
    ensures { opening_result result table.new ≡ open_group_at allowance (table_of table.old) group key.now }
{
    if let Err(e) = check_group(table.len(), group) {
        return refused(e);
    }
    let r = groups::open(table[group], allowance, key);
    table[group] = r.left;
    r.into()
}

// Wraps a message for a group: the cryptogram goes to the start of `out`, and the tag fills `tag`. Checks 3 and 5 to 10.
pub fn wrap_group(
    table: &mut [Record],
    group: usize,
    allowance: u32,
    metadata: &[u8],
    message: &[u8],
    out: &mut [u8],
    tag: &mut [u8],
    four: bool,
) -> Answer
    ensures { table_result result table.new out.new tag.new
        ≡ wrap_group_at allowance (table_of table.old) group
        (handed metadata.now message.now out.old tag.old) }
{
    if let Err(e) = check_group(table.len(), group) {
        return refused(e);
    }
    let r = groups::wrap(table[group], allowance, metadata, message, out, tag, four);
    table[group] = r.left;
    r.into()
}

// Unwraps a cryptogram for a group: the message goes to the start of `out`. Checks 3, 5 to 10 and 11.
pub fn unwrap_group(
    table: &mut [Record],
    group: usize,
    allowance: u32,
    metadata: &[u8],
    cryptogram: &[u8],
    tag: &[u8],
    out: &mut [u8],
    four: bool,
) -> Answer
    ensures { table_result result table.new out.new tag.now
        ≡ unwrap_group_at allowance (table_of table.old) group
        (handed metadata.now cryptogram.now out.old tag.now) }
{
    if let Err(e) = check_group(table.len(), group) {
        return refused(e);
    }
    let r = groups::unwrap(
        table[group],
        allowance,
        metadata,
        cryptogram,
        tag,
        out,
        four,
    );
    table[group] = r.left;
    r.into()
}

// ---- the nearly-full question

// The lowest group whose session is open with an index above the mark, if there is one.
fn first_above(table: &[Record], mark: u32) -> Option<usize>
    ensures { result ≡ position (λ r. above_mark (record_of r).session mark) table.now }
{
    table
        .iter()
        .position(|r| r.session.opened && mark < r.session.history.index)
}

// The nearly-full question: the lowest group that is open with an index above the mark, or none. Check 3.
pub fn nearly_full(table: &[Record], mark: u32) -> Result<Option<usize>, Refusal>
    ensures { nearly_full_result result ≡ nearly_full_at (table_of table.now) mark }
{
    if table.len() != GROUPS {
        return Err(Refusal::BadGroup);
    }
    Ok(first_above(table, mark))
}
