//! What became of envelopes, counted.
ghost use Rattle.std.specs.Prelude.{◌≡◌};
ghost use Rattle.relay_envelopes.specs.EachText.{with_planned, with_refused};

/// How many envelopes came, were planned and were refused, and how many findings their plans have. A count stays at 2^64 - 1.
#[derive(Clone, Copy, Debug, Default, PartialEq, Eq)]
pub struct EnvelopeCounts {
    pub envelopes: usize,
    pub planned: usize,
    pub refused: usize,
    /// Those of plans alone, not those of files and tables.
    pub findings: usize,
}

impl EnvelopeCounts {
    /// None of any.
    pub fn none() -> EnvelopeCounts
        ensures { result ≡ record { envelopes = 0; planned = 0; refused = 0; findings = 0 } }
    {
        EnvelopeCounts {
            envelopes: 0,
            planned: 0,
            refused: 0,
            findings: 0,
        }
    }

    /// With one more envelope whose plan has so many findings.
    pub fn with_planned(self, findings: usize) -> EnvelopeCounts
        ensures { result ≡ with_planned self findings }
    {
        EnvelopeCounts {
            envelopes: self.envelopes.saturating_add(1),
            planned: self.planned.saturating_add(1),
            refused: self.refused,
            findings: self.findings.saturating_add(findings),
        }
    }

    /// With one more envelope that is refused.
    pub fn with_refused(self) -> EnvelopeCounts
        ensures { result ≡ with_refused self }
    {
        EnvelopeCounts {
            envelopes: self.envelopes.saturating_add(1),
            planned: self.planned,
            refused: self.refused.saturating_add(1),
            findings: self.findings,
        }
    }
}
