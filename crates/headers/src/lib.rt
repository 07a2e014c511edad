// Whether bytes are the header of a call for an envelope (document 02, request 7): one of the layout (document 01, "Envelope") with the call's letter
// and lengths, and nothing before or after it. specs/Fits.antt says so by what reading finds, and proofs/Exactly.antt by the layout.
#![tactic(auto)]

ghost use Rattle.std.specs.Prelude.{◌≡◌};
ghost use Rattle.headers.specs.Fits.{found_for, fits, fits_group};

use envelope::{Header, read_header};

// Whether a header was read that has the letter and the lengths and ends n bytes on, so that nothing follows it.
#[tactic(auto, unfolding(crate::specs::Fits::found_for))]
fn found_for(letter: u8, alen: usize, mlen: usize, n: usize, h: Option<Header>) -> bool
    ensures { result ≡ found_for letter alen mlen n h }
{
    match h {
        Some(h) => h.letter == letter && h.alen == alen && h.mlen == mlen && h.place == n,
        None => false,
    }
}

// Whether bytes are a header with this letter and these lengths of metadata and message, of any group.
#[tactic(auto, unfolding(crate::specs::Fits::fits))]
pub fn fits(letter: u8, header: &[u8], alen: usize, mlen: usize) -> bool
    ensures { result ≡ fits letter alen mlen header.now }
{
    found_for(letter, alen, mlen, header.len(), read_header(header))
}

// Whether bytes are a header with this letter, this group and these lengths of metadata and message.
#[tactic(auto, unfolding(crate::specs::Fits::fits_group, crate::specs::Fits::fits))]
pub fn fits_group(letter: u8, group: usize, header: &[u8], alen: usize, mlen: usize) -> bool
    ensures { result ≡ fits_group letter group alen mlen header.now }
{
    let h = read_header(header);
    h.is_some_and(|h| h.group as usize == group) && found_for(letter, alen, mlen, header.len(), h)
}
