// The C library: each exported function hands its arguments on to one function of the crates below, as they came, and has that function's
// contract. A group is a number of 32 bits here. Nothing else is exported.
#![tactic(auto)]

mod c_session; // a lone session
mod c_sane; // a lone session of SANE
mod c_sae; // a lone session of SAE, for old letters
mod c_codes; // codes of packets
mod c_table; // the office's table and its day
mod c_envelope; // envelopes
mod c_pool; // a pool of unused rings
mod c_season; // issue seasons
mod c_till; // charging for rings
