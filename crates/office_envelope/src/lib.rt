// The office's table, calls for an envelope (document 02, request 7): wrap and unwrap for a group are handed the envelope's header too, whose bytes go
// before the metadata under the tag. A header that is not the layout's with letter S, the call's group and its own lengths is refused by 1, before
// every other check. `four` is whether full blocks are taken four side by side (request 10): it alters nothing but the time, and no clause speaks of
// it.
#![tactic(auto)]

ghost use Rattle.std.specs.Prelude.{◌≡◌};
ghost use Rattle.envelope.specs.Layout.{letter_s};
ghost use Rattle.headers.specs.Fits.{fits_group};
ghost use Rattle.sanse.specs.Session.{handed_for};
ghost use Rattle.refusals.specs.Numbers.{number_given};
ghost use Rattle.office.specs.Table.{no_group_outcome, table_check, table_of, table_result, wrap_group_at, unwrap_group_at};

use envelope::LETTER_S;
use groups::Record;
use refusals::Refusal;
use steps::Answer;

// ---- checks 1 and 3

// Checks 1 and 3, in this order: by the number of records, the group, the header, and the lengths of metadata and text.
pub fn first_check(
    records: usize,
    group: usize,
    header: &[u8],
    alen: usize,
    mlen: usize,
) -> Result<(), Refusal>
    ensures { number_given result ≡ table_check (fits_group letter_s group alen mlen header.now) (no_group_outcome records group) }
{
    if !headers::fits_group(LETTER_S, group, header, alen, mlen) {
        return Err(Refusal::BadHeader);
    }
    office::check_group(records, group)
}

// ---- the calls

// Wraps a message for a group and the envelope with this header: the cryptogram goes to the start of `out`, and the tag fills `tag`. Checks 1, 3 and 5
// to 10.
pub fn wrap_envelope_group(
    table: &mut [Record],
    group: usize,
    allowance: u32,
    header: &[u8],
    metadata: &[u8],
    message: &[u8],
    out: &mut [u8],
    tag: &mut [u8],
    four: bool,
) -> Answer
    ensures { table_result result table.new out.new tag.new
        ≡ wrap_group_at allowance (table_of table.old) group
        (handed_for header.now metadata.now message.now out.old tag.old) }
{
    if let Err(e) = first_check(table.len(), group, header, metadata.len(), message.len()) {
        return office::refused(e);
    }
    let r = groups::wrap_string(
        table[group],
        allowance,
        header,
        metadata,
        message,
        out,
        tag,
        four,
    );
    table[group] = r.left;
    r.into()
}

// Unwraps the cryptogram of the envelope with this header for a group: the message goes to the start of `out`. Checks 1, 3, 5 to 10 and 11.
pub fn unwrap_envelope_group(
    table: &mut [Record],
    group: usize,
    allowance: u32,
    header: &[u8],
    metadata: &[u8],
    cryptogram: &[u8],
    tag: &[u8],
    out: &mut [u8],
    four: bool,
) -> Answer
    ensures { table_result result table.new out.new tag.now
        ≡ unwrap_group_at allowance (table_of table.old) group
        (handed_for header.now metadata.now cryptogram.now out.old tag.now) }
{
    if let Err(e) = first_check(table.len(), group, header, metadata.len(), cryptogram.len()) {
        return office::refused(e);
    }
    let r = groups::unwrap_string(
        table[group],
        allowance,
        header,
        metadata,
        cryptogram,
        tag,
        out,
        four,
    );
    table[group] = r.left;
    r.into()
}
