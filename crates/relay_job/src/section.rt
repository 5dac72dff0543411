//! The sections of a job.
use relay_text::trimmed_end;

/// A section of a job that a heading names by its word.
#[derive(Clone, Copy)]
pub enum Section {
    Settings,
    Aliases,
    Mailboxes,
    Transport,
    Mx,
    Envelope,
}

impl Section {
    ghost use Rattle.std.specs.Prelude.{◌≡◌, Some, None, option_map, if◌then◌else◌};
    ghost use Rattle.relay_text.specs.Bytes.{has_text};
    ghost use Rattle.relay_job.specs.JobText.{section_words};
    ghost use Rattle.relay_job.specs.SectionPlaces.{word_of, section_word};

    /// The section whose word a heading is; white space at the heading's end is dropped.
    pub(crate) fn named(heading: &[u8]) -> Option<Section>
        ensures { option_map word_of result ≡ section_word heading.now }
    {
        Section::of_word(trimmed_end(heading))
    }

    /// The section of a word. No `match`: one of texts is proved byte by byte, with a goal for each byte that may differ.
    fn of_word(word: &[u8]) -> Option<Section>
        ensures { option_map word_of result ≡ (if has_text section_words word.now then Some word.now else None) }
    {
        if word == b"%settings".as_slice() {
            Some(Section::Settings)
        } else if word == b"%aliases".as_slice() {
            Some(Section::Aliases)
        } else if word == b"%mailboxes".as_slice() {
            Some(Section::Mailboxes)
        } else if word == b"%transport".as_slice() {
            Some(Section::Transport)
        } else if word == b"%mx".as_slice() {
            Some(Section::Mx)
        } else if word == b"%envelope".as_slice() {
            Some(Section::Envelope)
        } else {
            None
        }
    }
}
