//! What holds of each envelope that is asked for.
ghost use Rattle.std.specs.Prelude.{◌≤◌, ℕ, List, Contains, length};
ghost use Rattle.relay_job.specs.Envelopes.{HasNoHeading};
ghost use Rattle.relay_envelopes.specs.Sections.{Section};
ghost use Rattle.aliasplan_each.specs.Asks.{sections_in};

/// No line of a section is a heading, where it isn't too long: so the tables and it, put together, are a job, as
/// `relay_envelopes::sections_are_joined` says of sections in one text.
pub fn sections_beside_are_plain()
    ensures { (max : ℕ) (input : List ℕ) (section : Section) → Contains (sections_in max input) section → length section.bytes ≤ max → HasNoHeading section.bytes }
{}
