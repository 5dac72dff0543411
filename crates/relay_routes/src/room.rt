//! How much room one thread takes ahead for the lines of a table, by the length of its text: less than twice what the text itself takes,
//! whatever it holds. Several threads take room for as many lines as they expect, up to six and a half times what the text takes. Of room
//! that no line fills no memory is touched.

/// For so many bytes there is room for one line that was read, which takes up to 104. Many lines are a little shorter, so a vector
/// still doubles once.
pub(crate) const BYTES_FOR_LINE: usize = 64;

/// For so many bytes there is one head of 4 bytes: about two for each short line, so that the heads are seldom doubled.
pub(crate) const BYTES_FOR_HEAD: usize = 16;

/// How many texts of a table are numbered at most: each number fits 32 bits.
pub(crate) const MOST_TEXTS: usize = u32::MAX as usize - 1;
