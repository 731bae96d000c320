//! SHA-256 of several messages at once (FIPS 180-4).
//!
//! - [`compress`] is the compression of a block of each message.
//! - [`chain_step`] is the digest of messages of 55 bytes: a prefix, a counter and a digest.
//! - [`begin`], [`Pending`] and [`take_blocks`] hash messages of any length, block by block.
//! - [`prefix_words`], [`put_prefix`], [`digest_words`], [`put_digest`] and [`digest`] convert
//!   between bytes and rows of vectors.
//!
//! A vector has `N` lanes, one for each message, and a row is an array of vectors. The caller
//! chooses `N`; which one is fastest depends on the processor that the program is built for. Only
//! [`Pending::new`] allocates.
#![tactic(auto)]

mod arrays;
mod block;
mod bytes;
mod consts;
mod pending;
mod step;
mod word;

/// Number of messages that are hashed side by side, at most 64. A vector register of x86-64-v2 has
/// four words, one of x86-64-v3 eight.
pub const LANES: usize = 4;

pub use block::compress;
pub use bytes::{digest, digest_words, prefix_words, put_digest, put_prefix};
pub use pending::{PIECE, Pending, begin, take_blocks};
pub use step::chain_step;
