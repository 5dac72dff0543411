//! Headings.
use crate::section::Section;
use relay_text::trimmed;

/// What a heading names.
#[derive(Clone, Copy)]
pub enum Heading<'a> {
    /// A section, by its word.
    Named(Section),
    /// An include file, by its path.
    Include(&'a [u8]),
}

ghost use Rattle.std.specs.Prelude.{◌≡◌, option_map};
ghost use Rattle.relay_job.specs.JobText.{section_of};
ghost use Rattle.relay_job.specs.SectionPlaces.{include_word, heading_section};

/// The path of the include file that a heading names: it begins with `/`, and white space stands before it.
fn include_path(heading: &[u8]) -> Option<&[u8]>
    ensures { option_map (λ path. path.now) result ≡ include_word heading.now }
{
    match heading.strip_prefix(b"%include")? {
        rest @ [b' ' | b'\t', ..] => {
            let path = trimmed(rest);
            if path.starts_with(b"/") {
                Some(path)
            } else {
                None
            }
        }
        _ => None,
    }
}

impl<'a> Heading<'a> {
    /// What a heading names, without the white space at its end and round a path; `None` where it names nothing.
    pub(crate) fn of(text: &'a [u8]) -> Option<Heading<'a>>
        ensures { option_map heading_section result ≡ section_of text.now }
    {
        match Section::named(text) {
            Some(section) => Some(Heading::Named(section)),
            None => {
                let path = include_path(text)?;
                Some(Heading::Include(path))
            }
        }
    }
}
