//! The lines of a file that stand in a section.
use relay_text::Text;

/// A file that stands in a section, behind those before it, each of its lines as one line there (`lines_of_files`).
#[derive(Drop)]
pub struct FileLines {
    pub path: Text,
    /// How many lines it has; the last may lack its end.
    pub lines: usize,
}
