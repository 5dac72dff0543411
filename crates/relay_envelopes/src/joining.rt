//! How sections and tables are put together as jobs.
ghost use Rattle.std.specs.Prelude.{◌≡◌, ℕ, List, None, Contains};
ghost use Rattle.relay_job.specs.JobText as jobs;
ghost use Rattle.relay_job.specs.Envelopes.{EndsWithLine, HasNoEnvelope, HasNoHeading};
ghost use Rattle.relay_envelopes.specs.Sections as sections;

/// Each section stands for a job: the text's tables and an envelope's section, put together, have what `relay_job::joined_envelopes` asks
/// of them. The tables end with a line where a section stands behind them, they have no envelope of their own, and no line of a section
/// is a heading.
pub fn sections_are_joined()
    ensures front { (text : List ℕ) (line : jobs.JobLine) → Contains (sections.lines_behind text) line → EndsWithLine (sections.front_of text) }
    ensures unnamed { (text : List ℕ) → jobs.bad_job (sections.front_of text) ≡ None → HasNoEnvelope (sections.front_of text) }
    ensures sections { (text : List ℕ) (section : sections.Section) → Contains (sections.envelopes_of (sections.lines_behind text)) section → HasNoHeading section.bytes }
{}
