//! A further memory and a further book, written against nothing but the two traits: what the store promises holds over both.
#![tactic(auto)]

mod holder_book;
mod holders;
mod mirror;
#[cfg(test)]
mod tests;

pub use holder_book::HolderBook;
pub use mirror::Mirror;
