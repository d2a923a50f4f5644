//! The text of the station's script: numbers, lines, fields, commands and the rows of a report.
//! It knows the store's calls and answers, and no store.
#![tactic(auto)]

mod commands;
mod decimal;
mod lines;
mod rows;
mod words;
mod writing;

pub use commands::parse;
pub use decimal::{number, put_number};
pub use lines::split_line;
pub use rows::put_row;
pub use words::{Word, count_fields, word_at};
