//! A long text that is cut in two, for two threads to read, and what both read of it.
//!
//! Files and tables are read by lines, and a line that begins with white space continues the one before (aliases(5), transport(5)). So
//! [`halves`] cuts before a line that is kept and continues none: then what both parts say is what the whole text says, the lines of the
//! second numbered on behind those of the first, which [`line_count`] counts. Each part may be cut again, as long as there are threads for
//! it and it is long. [`read_by`] does so for whatever is a [`PartRead`]: it can be read of a part, and put behind that of another.
#![tactic(auto)]

pub mod halving;
pub mod part_read;

pub use halving::{LEAST_HALF, about_lines, halves, is_long, line_count};
pub use part_read::{PartRead, read_by};
