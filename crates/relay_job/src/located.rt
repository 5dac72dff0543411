//! Lines of a job by their numbers.
use crate::place::Place;
use crate::raw_line::RawLine;

/// A line of a job.
#[derive(Clone, Copy)]
pub struct LocatedLine<'a> {
    pub(crate) line: RawLine<'a>,
    /// Its number behind the heading before it, from 1; 0 for a heading itself.
    pub own_number: usize,
}

ghost use Rattle.std.specs.Prelude.{◌≡◌, option_map};
ghost use Rattle.relay_text.specs.Lines.{line_text};
ghost use Rattle.relay_job.specs.JobText.{job_lines, content_of, text_of};
ghost use Rattle.relay_job.specs.Reasons.{located};
ghost use Rattle.relay_job.specs.LocatedLines.{located_in};

impl<'a> LocatedLine<'a> {
    /// The line of a number, counted from 1; `None` where the job has no such line.
    pub fn find(bytes: &'a [u8], number: usize) -> Option<LocatedLine<'a>>
        ensures { option_map located_in result ≡ located number 0 (job_lines bytes.now) }
    {
        let mut before = 0;
        let mut place = Place::start(bytes);
        while let Some((line, after)) = place.split() {
            let own_number = if line.is_heading() { 0 } else { before + 1 };
            if line.number == number {
                return Some(LocatedLine { line, own_number });
            }
            before = own_number;
            place = after;
        }
        None
    }

    /// The line without its end.
    pub fn text(&self) -> &'a [u8]
        ensures { result.now ≡ text_of (located_in self.now).line }
    {
        self.line.text()
    }

    /// The line as it stands for itself in its section, without its end.
    pub fn content(&self) -> &'a [u8]
        ensures { result.now ≡ line_text (content_of (located_in self.now).line.raw) }
    {
        self.line.content_text()
    }
}
