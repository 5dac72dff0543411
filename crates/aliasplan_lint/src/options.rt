//! What is asked of a lint.
use crate::kind::Kind;
use relay_text::Seq;

/// What is asked of a lint.
#[derive(Drop)]
pub struct LintOptions {
    /// Whether also is told what a message of the null sender to every alias comes to.
    pub aliases: bool,
    /// Whether addresses without a route are told.
    pub routes: bool,
    /// The kinds that aren't told.
    pub allowed: Seq<Kind>,
}

/// How much is told.
#[derive(Clone, Copy, Debug, PartialEq, Eq)]
pub struct LintCounts {
    pub errors: usize,
    pub warnings: usize,
    pub notes: usize,
}

ghost use Rattle.std.specs.Prelude.{◌≡◌, ◌==◌, ◌&&◌, ◌||◌, not};
ghost use Rattle.std.specs.List.{list_any};
ghost use Rattle.aliasplan_lint.specs.Kinds.{is_kept, is_kind};

/// Whether a kind is among these.
fn has_kind(kinds: &[Kind], kind: Kind) -> bool
    ensures { result ≡ list_any (is_kind kind) kinds.now }
{
    kinds.iter().any(|other| kind.is(*other))
}

impl LintOptions {
    /// Whether this kind is told.
    pub(crate) fn keeps(&self, kind: Kind) -> bool
        ensures { result ≡ is_kept self.now.routes self.now.allowed kind }
    {
        if self.routes || !Kind::Unrouted.is(kind) {
            !has_kind(self.allowed.as_slice(), kind)
        } else {
            false
        }
    }
}

impl LintCounts {
    /// Whether files pass of which so much is told: without errors, and where it's strict without warnings.
    pub fn pass(self, strict: bool) -> bool
        ensures { result ≡ (self.errors == 0 && (not strict || self.warnings == 0)) }
    {
        self.errors == 0 && (!strict || self.warnings == 0)
    }
}
