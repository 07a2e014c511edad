// The office's table: a lent run of 32 records, each a session and its own day's count. The day's allowance is handed in by value.
ghost use Rattle.std.specs.Prelude.{◌≡◌, ◌<◌};
ghost use Rattle.sanse.specs.Session.{handed, handed_for};
ghost use Rattle.office.specs.Table.{table_of, day_result, table_result, opening_result, start_day_at, wrap_group_at, unwrap_group_at, open_group_at, nearly_full_at, nearly_full_result};
ghost use Rattle.capi.specs.Found.{found_result};

use groups::Record;
use refusals::Refusal;
use steps::Answer;

// The answer of the nearly-full question: its number (0: answered), whether a group was found, and the group, 0 where none was. What C gets.
#[repr(C)]
#[derive(Clone, Copy)]
pub struct Found {
    pub number: u32,
    pub found: bool,
    pub group: u32,
}

// A day begins: a count of 0 in every record handed in, of any number, and the allowance that is given. It is never refused.
#[unsafe(no_mangle)]
pub extern "C" fn pevghazo_start_day(records: &mut [Record], allowance: u32) -> u32
    ensures { day_result result records.new ≡ start_day_at allowance (table_of records.old) }
{
    office::start_day(records, allowance)
}

// Opens a group: a fresh session in its record, and its count plus 1. The record stays as it was where the call is refused. Checks 3, 4 and 10.
#[unsafe(no_mangle)]
pub extern "C" fn pevghazo_open_group(
    table: &mut [Record],
    group: u32,
    allowance: u32,
    key: &[u8],
) -> Answer
    ensures { opening_result result table.new ≡ open_group_at allowance (table_of table.old) group key.now }
{
    office::open_group(table, group as usize, allowance, key)
}

// Wraps a message for a group: the cryptogram goes to the start of `out`, and the tag fills `tag`. Checks 3 and 5 to 10.
#[unsafe(no_mangle)]
pub extern "C" fn pevghazo_wrap_group(
    table: &mut [Record],
    group: u32,
    allowance: u32,
    metadata: &[u8],
    message: &[u8],
    out: &mut [u8],
    tag: &mut [u8],
) -> Answer
    ensures { table_result result table.new out.new tag.new
        ≡ wrap_group_at allowance (table_of table.old) group
        (handed metadata.now message.now out.old tag.old) }
{
    office::wrap_group(
        table,
        group as usize,
        allowance,
        metadata,
        message,
        out,
        tag,
        false,
    )
}

// Unwraps a cryptogram for a group: the message goes to the start of `out`. Checks 3, 5 to 10 and 11.
#[unsafe(no_mangle)]
pub extern "C" fn pevghazo_unwrap_group(
    table: &mut [Record],
    group: u32,
    allowance: u32,
    metadata: &[u8],
    cryptogram: &[u8],
    tag: &[u8],
    out: &mut [u8],
) -> Answer
    ensures { table_result result table.new out.new tag.now
        ≡ unwrap_group_at allowance (table_of table.old) group
        (handed metadata.now cryptogram.now out.old tag.now) }
{
    office::unwrap_group(
        table,
        group as usize,
        allowance,
        metadata,
        cryptogram,
        tag,
        out,
        false,
    )
}

// Wraps a message for a group and the envelope with this header: one of the layout with letter S, this group and the lengths of metadata and message.
// Its bytes go before the metadata under the tag. Check 1, and then 3 and 5 to 10.
#[unsafe(no_mangle)]
pub extern "C" fn pevghazo_wrap_envelope_group(
    table: &mut [Record],
    group: u32,
    allowance: u32,
    header: &[u8],
    metadata: &[u8],
    message: &[u8],
    out: &mut [u8],
    tag: &mut [u8],
) -> Answer
    ensures { table_result result table.new out.new tag.new
        ≡ wrap_group_at allowance (table_of table.old) group
        (handed_for header.now metadata.now message.now out.old tag.old) }
{
    office_envelope::wrap_envelope_group(
        table,
        group as usize,
        allowance,
        header,
        metadata,
        message,
        out,
        tag,
        false,
    )
}

// Unwraps the cryptogram of the envelope with this header for a group. Check 1, and then 3, 5 to 10 and 11.
#[unsafe(no_mangle)]
pub extern "C" fn pevghazo_unwrap_envelope_group(
    table: &mut [Record],
    group: u32,
    allowance: u32,
    header: &[u8],
    metadata: &[u8],
    cryptogram: &[u8],
    tag: &[u8],
    out: &mut [u8],
) -> Answer
    ensures { table_result result table.new out.new tag.now
        ≡ unwrap_group_at allowance (table_of table.old) group
        (handed_for header.now metadata.now cryptogram.now out.old tag.now) }
{
    office_envelope::unwrap_envelope_group(
        table,
        group as usize,
        allowance,
        header,
        metadata,
        cryptogram,
        tag,
        out,
        false,
    )
}

// ---- the same with full blocks taken four side by side (document 02, request 10): each has the contract of the function without `_four`, and alters
// nothing but the time

// Wraps a message for a group, as `pevghazo_wrap_group` does.
#[unsafe(no_mangle)]
pub extern "C" fn pevghazo_wrap_group_four(
    table: &mut [Record],
    group: u32,
    allowance: u32,
    metadata: &[u8],
    message: &[u8],
    out: &mut [u8],
    tag: &mut [u8],
) -> Answer
    ensures { table_result result table.new out.new tag.new
        ≡ wrap_group_at allowance (table_of table.old) group
        (handed metadata.now message.now out.old tag.old) }
{
    office::wrap_group(
        table,
        group as usize,
        allowance,
        metadata,
        message,
        out,
        tag,
        true,
    )
}

// Unwraps a cryptogram for a group, as `pevghazo_unwrap_group` does.
#[unsafe(no_mangle)]
pub extern "C" fn pevghazo_unwrap_group_four(
    table: &mut [Record],
    group: u32,
    allowance: u32,
    metadata: &[u8],
    cryptogram: &[u8],
    tag: &[u8],
    out: &mut [u8],
) -> Answer
    ensures { table_result result table.new out.new tag.now
        ≡ unwrap_group_at allowance (table_of table.old) group
        (handed metadata.now cryptogram.now out.old tag.now) }
{
    office::unwrap_group(
        table,
        group as usize,
        allowance,
        metadata,
        cryptogram,
        tag,
        out,
        true,
    )
}

// Wraps a message for a group and the envelope with this header, as `pevghazo_wrap_envelope_group` does.
#[unsafe(no_mangle)]
pub extern "C" fn pevghazo_wrap_envelope_group_four(
    table: &mut [Record],
    group: u32,
    allowance: u32,
    header: &[u8],
    metadata: &[u8],
    message: &[u8],
    out: &mut [u8],
    tag: &mut [u8],
) -> Answer
    ensures { table_result result table.new out.new tag.new
        ≡ wrap_group_at allowance (table_of table.old) group
        (handed_for header.now metadata.now message.now out.old tag.old) }
{
    office_envelope::wrap_envelope_group(
        table,
        group as usize,
        allowance,
        header,
        metadata,
        message,
        out,
        tag,
        true,
    )
}

// Unwraps the cryptogram of the envelope with this header for a group, as `pevghazo_unwrap_envelope_group` does.
#[unsafe(no_mangle)]
pub extern "C" fn pevghazo_unwrap_envelope_group_four(
    table: &mut [Record],
    group: u32,
    allowance: u32,
    header: &[u8],
    metadata: &[u8],
    cryptogram: &[u8],
    tag: &[u8],
    out: &mut [u8],
) -> Answer
    ensures { table_result result table.new out.new tag.now
        ≡ unwrap_group_at allowance (table_of table.old) group
        (handed_for header.now metadata.now cryptogram.now out.old tag.now) }
{
    office_envelope::unwrap_envelope_group(
        table,
        group as usize,
        allowance,
        header,
        metadata,
        cryptogram,
        tag,
        out,
        true,
    )
}

// ---- the nearly-full question

// The table's answer as a number and values, with the group in 32 bits. No `From`: that would ask nothing, and another number might not fit.
fn narrow(r: Result<Option<usize>, Refusal>) -> Found
    requires { (nearly_full_result r).group < 32 }
    ensures { found_result result ≡ nearly_full_result r }
{
    match r {
        Err(e) => Found {
            number: u32::from(e),
            found: false,
            group: 0,
        },
        Ok(None) => Found {
            number: 0,
            found: false,
            group: 0,
        },
        Ok(Some(g)) => Found {
            number: 0,
            found: true,
            group: g as u32,
        },
    }
}

// The nearly-full question: the lowest group that is open with an index above the mark, or none. Check 3.
#[unsafe(no_mangle)]
pub extern "C" fn pevghazo_nearly_full(table: &[Record], mark: u32) -> Found
    ensures { found_result result ≡ nearly_full_at (table_of table.now) mark }
{
    narrow(office::nearly_full(table, mark))
}
