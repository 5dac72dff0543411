//! What the process ends with.
ghost use Rattle.std.specs.Prelude.{◌≡◌};
ghost use Rattle.aliasplan_command.specs.Statuses.{code_of, code_after};

use relay_job::RunFault;

/// The exit statuses.
#[derive(Clone, Copy, Debug, PartialEq, Eq)]
pub enum Status {
    /// The plan is written and has no findings, or the domains are written, or the job is gathered, or an address is explained that is in
    /// the plan, or names and addresses are expanded to some address, or to a tree or a graph.
    Done,
    /// The plan is written and has findings, or an address is explained that isn't in the plan, or names and addresses are
    /// expanded to none.
    Found,
    /// The job is refused.
    Refused,
    /// Memory ran out.
    OutOfMemory,
    /// The job can't be read, or the answer can't be written.
    Broken,
    /// The command line asks for nothing that there is.
    CommandLine,
}

impl Status {
    /// The number that the process ends with.
    pub fn code(self) -> u8
        ensures { result ≡ code_after self }
    {
        match self {
            Status::Done => 0,
            Status::Found => 1,
            Status::Refused => 2,
            Status::OutOfMemory => 3,
            Status::Broken => 4,
            Status::CommandLine => 5,
        }
    }

    /// What ends a call with this fault.
    pub(crate) fn of_fault(fault: RunFault) -> Status
        ensures { code_after result ≡ code_of fault }
    {
        match fault {
            RunFault::Read | RunFault::Write => Status::Broken,
            RunFault::Memory => Status::OutOfMemory,
            _ => Status::Refused,
        }
    }
}
