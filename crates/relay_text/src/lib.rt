//! Addresses, names and lines of text, as alias files, tables and envelopes spell them.
#![tactic(auto)]

pub mod address;
mod class;
mod cut;
pub mod domain;
pub mod equality;
pub mod fault;
mod few_bytes;
pub mod first_places;
mod hashed_text;
mod inline_bytes;
mod inside;
pub mod kept;
pub mod lines;
mod local;
pub mod logical;
pub mod number;
pub mod parse;
mod place;
pub mod plain;
pub mod quoted;
mod room;
mod run;
pub mod scan;
pub mod seq;
pub mod split;
pub mod text;
pub mod text_set;
pub mod write;

pub use address::{Address, one_joined_text};
pub use domain::{is_domain, is_domain_name, is_literal_content};
pub use equality::same_bytes;
pub use fault::TextFault;
pub use first_places::FirstPlaces;
pub use kept::{KeptLine, KeptLines, PlainLine};
pub use lines::{Line, Lines, logical_lines};
pub use local::local_text_len;
pub use logical::{LogicalLine, LogicalLines};
pub use number::number_within;
pub use parse::{parse_address, parse_name, parse_path};
pub use plain::PlainText;
pub use quoted::quoted_content;
pub use scan::{
    begins_with_word, fold, is_ignored, line_text, split_line, trimmed, trimmed_end, trimmed_start,
};
pub use seq::Seq;
pub use split::split_place;
pub use text::Text;
pub use text_set::TextSet;
pub use write::{null_path, one_name, one_spelling, path_len, write_local, write_path};
