//! What a run sums up.
use relay_job::RunFault;
use relay_wire::{Plan, recipient_count};

/// The three numbers of a plan's first line.
#[derive(Clone, Copy, Debug, PartialEq, Eq)]
pub struct Summary {
    pub transactions: usize,
    pub recipients: usize,
    pub findings: usize,
}

impl Summary {
    ghost use Rattle.std.specs.Prelude.{◌≡◌, IfOk, IfErr};
    ghost use Rattle.relay_planning.specs.Written.{summary_of};

    /// The numbers of a plan. More recipients than a number can count are more than memory holds.
    pub fn of(plan: &Plan) -> Result<Summary, RunFault>
        ensures numbers { IfOk result (λ summary. summary ≡ summary_of plan.now) }
        ensures memory { IfErr result (λ fault. fault ≡ RunFault.Memory) }
    {
        let transactions = plan.transactions.as_slice();
        Ok(Summary {
            transactions: transactions.len(),
            recipients: recipient_count(transactions).ok_or(RunFault::Memory)?,
            findings: plan.findings.as_slice().len(),
        })
    }
}
