//! Places in a job.
ghost use Rattle.std.specs.Prelude.{◌+◌, ◌^◌, ◌<◌, length};

use crate::line_feeds::line_feeds;
use crate::percent_line::{next_line_place, percent_line_place};
use crate::raw_line::{RawLine, is_doubled};
use relay_text::split_line;

/// A place behind a line of a job, or at its start.
#[derive(Clone, Copy)]
pub struct Place<'a> {
    /// The number of the line before it; 0 at the job's start.
    pub line: usize,
    /// What stands behind it, to the job's end.
    pub rest: &'a [u8],
    ghost in_range: { line + length rest.now < 2 ^ 64 },
}

impl<'a> Place<'a> {
    ghost use Rattle.std.specs.Prelude.{◌≡◌, ◌≤◌, ◌==◌, [], ◌∷◌, ◌++◌, take, drop, flat_map, count_by, IfSome, IfNone};
    ghost use Rattle.relay_job.specs.Envelopes.{EndsWithLine};
    ghost use Rattle.relay_job.specs.JobText.{job_lines, content_of};
    ghost use Rattle.relay_job.specs.Places.{line_of, lines_at, content_at, IsWithinSection};
    ghost use Rattle.relay_job.specs.PercentLines.{from_percent_line};

    /// The start of a job.
    pub fn start(bytes: &'a [u8]) -> Place<'a>
        ensures lines { lines_at result ≡ job_lines bytes.now }
        ensures number { result.line ≡ 0 }
    {
        Place {
            line: 0,
            rest: bytes,
        }
    }

    /// The next line, and the place behind it; `None` at the job's end.
    #[inline]
    pub fn split(&self) -> Option<(RawLine<'a>, Place<'a>)>
        ensures none { IfNone result (lines_at self.now ≡ []) }
        ensures lines { IfSome result (λ split. lines_at self.now ≡ line_of split.0 ∷ lines_at split.1) }
        ensures number { IfSome result (λ split. split.1.line ≡ split.0.number) }
        ensures bytes { IfSome result (λ split. self.now.rest.now ≡ split.0.raw.now ++ split.1.rest.now) }
        ensures shorter { IfSome result (λ split. length split.1.rest.now < length self.now.rest.now) }
    {
        let (raw, rest) = split_line(self.rest)?;
        let number = self.line + 1;
        Some((RawLine { number, raw }, Place { line: number, rest }))
    }

    /// The place before the next line that begins with `%`, or the job's end. The lines on the way are counted by their LFs, and none of
    /// them is cut: at the job's end the number is one less where the last line has no LF.
    pub(crate) fn before_percent_line(&self) -> Place<'a>
        ensures lines { lines_at result ≡ from_percent_line (lines_at self.now) }
        ensures no_longer { length result.rest.now ≤ length self.now.rest.now }
    {
        self.split_lines(percent_line_place(self.rest)).1
    }

    /// This section with nothing behind it, where no line of it begins with `%%`: its lines stand for themselves.
    pub(crate) fn plain(&self) -> Option<Place<'a>>
        ensures content { IfSome result (λ plain. content_at plain ≡ content_at self.now) }
        ensures within { IfSome result (λ plain. IsWithinSection plain) }
        ensures bytes { IfSome result (λ plain. plain.rest.now ≡ flat_map (λ l. content_of l.raw) (content_at self.now)) }
    {
        let (front, rest) = self.rest.split_at(percent_line_place(self.rest));
        if is_doubled(rest) {
            return None;
        }
        Some(Place {
            line: self.line,
            rest: front,
        })
    }

    /// The lines up to the one that holds the byte of this index, and those behind it.
    pub(crate) fn split_behind(&self, index: usize) -> (Place<'a>, Place<'a>)
        requires { index < length self.now.rest.now }
        ensures { lines_at self.now ≡ lines_at result.0 ++ lines_at result.1 }
    {
        self.split_lines(next_line_place(self.rest, index))
    }

    /// The lines up to so many bytes on, where a line begins or nothing is left, and those behind them.
    fn split_lines(&self, len: usize) -> (Place<'a>, Place<'a>)
        requires within { len ≤ length self.now.rest.now }
        requires begins { len < length self.now.rest.now → EndsWithLine (take len self.now.rest.now) }
        ensures lines { lines_at self.now ≡ lines_at result.0 ++ lines_at result.1 }
        ensures front { (result.0.line ≡ self.now.line) × (result.0.rest.now ≡ take len self.now.rest.now) }
        ensures behind { (result.1.line ≡ self.now.line + count_by (λ b. b == 10) (take len self.now.rest.now)) × (result.1.rest.now ≡ drop len self.now.rest.now) }
    {
        let (front, rest) = self.rest.split_at(len);
        let line = self.line + line_feeds(front);
        let before = Place {
            line: self.line,
            rest: front,
        };
        (before, Place { line, rest })
    }

    /// The next line of this section, and the place behind it; `None` at the next heading and at the job's end.
    #[inline]
    pub(crate) fn split_content(&self) -> Option<(RawLine<'a>, Place<'a>)>
        ensures none { IfNone result (content_at self.now ≡ []) }
        ensures lines { IfSome result (λ split. content_at self.now ≡ line_of split.0 ∷ content_at split.1) }
        ensures bytes { IfSome result (λ split. self.now.rest.now ≡ split.0.raw.now ++ split.1.rest.now) }
        ensures shorter { IfSome result (λ split. length split.1.rest.now < length self.now.rest.now) }
    {
        let (line, after) = self.split()?;
        if line.is_heading() {
            return None;
        }
        Some((line, after))
    }
}
