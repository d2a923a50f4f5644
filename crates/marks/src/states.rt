//! The metastate of a block: the sum of the tokens taken and, where one thread took them all,
//! that thread.

/// (Sum, thread) as TokenTM writes it, with T = 64 tokens.
#[derive(Clone, Copy, PartialEq, Eq, Debug)]
pub enum Metastate {
    /// (u, –): u tokens from 0 to 63, by readers that are not named
    Anonymous(u64),
    /// (1, X): one token, by the reader X
    Reader(u64),
    /// (64, X): all tokens, by the writer X
    Writer(u64),
}
