// Envelopes: where the parts of one stand, the bytes of one, and a header alone.
ghost use Rattle.std.specs.Prelude.{◌≡◌};
ghost use Rattle.envelope.specs.Read.{read_parts, read_answer};
ghost use Rattle.envelope_write.specs.Write.{write_answer, write_buffer, header_answer, header_buffer};

use envelope::{ReadResult, read_parts};
use envelope_write::{WriteResult, write_envelope, write_header};

// The letter and the group of the envelope at the start of some bytes, where its parts begin, and the place after it. Checks 1 and 2.
#[unsafe(no_mangle)]
pub extern "C" fn pevghazo_read_envelope(bytes: &[u8]) -> ReadResult
    ensures { result ≡ read_answer (read_parts bytes.now) }
{
    ReadResult::from(read_parts(bytes))
}

// Writes an envelope of a letter to the start of `out` and gives how many bytes that are. Checks 18, 1, 3, 6, 7 and 8.
#[unsafe(no_mangle)]
pub extern "C" fn pevghazo_write_envelope(
    letter: u8,
    group: u32,
    metadata: &[u8],
    cryptogram: &[u8],
    tag: &[u8],
    out: &mut [u8],
) -> WriteResult
    ensures { (result ≡ write_answer letter group metadata.now cryptogram.now tag.now out.old)
        × (out.new ≡ write_buffer letter group metadata.now cryptogram.now tag.now out.old) }
{
    WriteResult::from(write_envelope(letter, group, metadata, cryptogram, tag, out))
}

// Writes a header alone to the start of `out`, for these lengths of metadata and message, and gives how many bytes that are. Checks 18, 1, 3, 6
// and 8.
#[unsafe(no_mangle)]
pub extern "C" fn pevghazo_write_header(
    letter: u8,
    group: u32,
    alen: usize,
    mlen: usize,
    out: &mut [u8],
) -> WriteResult
    ensures { (result ≡ header_answer letter group alen mlen out.old)
        × (out.new ≡ header_buffer letter group alen mlen out.old) }
{
    WriteResult::from(write_header(letter, group, alen, mlen, out))
}
