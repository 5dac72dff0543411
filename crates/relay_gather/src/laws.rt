//! What joined files have.
ghost use Rattle.std.specs.Prelude.{ℕ, List};
ghost use Rattle.relay_gather.specs.Source.{Answer};
ghost use Rattle.relay_gather.specs.JoinedFiles.{AreApart};
ghost use Rattle.relay_gather.specs.Origins.{AreLinesOfFiles};

/// A law, with nothing to run: several alias files or transport tables that are joined have the logical lines of each, one file behind the
/// other. So a line of one continues no entry of another.
pub fn files_apart()
    ensures { (answer : List ℕ → Answer) (first : List ℕ) (paths : List (List ℕ)) (whole : List ℕ) → AreApart answer first paths whole }
{}

/// A law, with nothing to run: several alias files or transport tables that are joined have the lines of each, one for one, one file behind
/// the other. So the line of a section whose `origin_of` is a line of a file is that line, or a comment of it.
pub fn lines_of_files()
    ensures { (answer : List ℕ → Answer) (path : List ℕ) (paths : List (List ℕ)) (whole : List ℕ) → AreLinesOfFiles answer path paths whole }
{}
