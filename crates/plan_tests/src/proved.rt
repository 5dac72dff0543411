//! Whole calls in memory, whose contracts leave no premise about readers, writers and files, by example.
ghost use Rattle.std.specs.Prelude.{◌≡◌, ◌≤◌, ◌⊎◌, false, [], Ok, Err, IfOk, IfErr};
ghost use Rattle.relay_planning.specs.Limits.{AreOptions, AreLimits};
ghost use Rattle.aliasplan.specs.Outcomes.{IsAnswer, Refuses};
ghost use Rattle.relay_gather.specs.Gathering.{IsGathered};
ghost use Rattle.plan_tests.specs.FilesInMemory.{answer_among};

use crate::devices::Paper;
use crate::files::{File, Files};
use crate::limits::LIMITS;
use aliasplan::{Device, Form, Limits, NoGate, Options, Paths, RunFault, Summary, gather, run};
use relay_text::{Seq, Text};
use std::alloc::{AllocError, Global};
use std::test::Fail;
use std::thread::Threads;

/// Nothing, with room for all that memory holds.
pub(crate) fn blank(alloc: Global) -> Paper
    ensures nothing { result.text.items ≡ [] }
    ensures works { result.failed ≡ false }
{
    Paper {
        text: Vec::new(alloc),
        room: usize::MAX,
        failed: false,
    }
}

/// The text of a job's plan, and its numbers.
fn written<R: Threads + Sync>(
    rt: &R,
    alloc: Global,
    job: &[u8],
    options: Options,
    limits: Limits,
) -> Result<(Text, Summary), RunFault>
    requires options { AreOptions options }
    requires limits { AreLimits limits }
    ensures answer { IfOk result (λ answer. IsAnswer limits options.form job.now answer.0 answer.1) }
    ensures refused { IfErr result (Refuses limits job.now) }
{
    let mut reader = Device::new(job);
    let mut writer = blank(alloc);
    let summary = run(
        rt,
        alloc,
        &mut reader,
        &mut writer,
        options,
        limits,
        &NoGate,
    )?;
    Ok((Text::of(writer.text), summary))
}

/// The text of a job whose files lie apart.
fn gathered(alloc: Global, files: &[File], paths: &Paths, max: usize) -> Result<Text, RunFault>
    requires { max ≤ 67108864 }
    ensures text { IfOk result (λ text. IsGathered (answer_among (λ f. f.path.now) (λ f. f.bytes.now) files.now) paths.now max (Ok text)) }
    ensures refused { IfErr result (λ fault. IsGathered (answer_among (λ f. f.path.now) (λ f. f.bytes.now) files.now) paths.now max (Err fault) ⊎ ((fault ≡ RunFault.Memory) ⊎ (fault ≡ RunFault.Write))) }
{
    let mut writer = blank(alloc);
    gather(alloc, &mut Files { files }, paths, &mut writer, max)?;
    Ok(Text::of(writer.text))
}

const OPTIONS: Options = Options {
    form: Form::Plan,
    workers: 2,
    cut: 2,
    key: 0,
};

const JOB: &[u8] = b"%settings\n\
      myhostname = relay.example.org\n\
      myorigin = example.org\n\
      mydestination = example.org, localhost\n\
      recipient_delimiter = +\n\
      default_destination_recipient_limit = 50\n\
      mailbox_transport = lmtp:unix:mbox\n\
      seed = 0\n\
      %mailboxes\n\
      joe\n\
      %envelope\n\
      MAIL FROM:<a@example.net>\n\
      RCPT TO:<joe@example.org>\n";

const PLAN: &[u8] = b"plan 1 transactions 1 recipients 0 findings\n\
      transaction 1\n\
      from <a@example.net>\n\
      via lmtp unix:mbox\n\
      host unix:mbox\n\
      to <joe@example.org>\n\
      end\n";

#[test]
fn writes_the_plan_of_a_job(rt: HostRuntime) {
    match written(&rt, rt.alloc(), JOB, OPTIONS, LIMITS) {
        Ok((text, summary)) => {
            assert_eq!(rt; text.as_bytes(), PLAN);
            assert_eq!(rt;
                (summary.transactions, summary.recipients, summary.findings),
                (1, 1, 0)
            );
        }
        Err(fault) => assert!(rt; false, "{fault}"),
    }
}

#[test]
fn refuses_a_text_that_is_no_job(rt: HostRuntime) {
    let answer = written(&rt, rt.alloc(), b"hello", OPTIONS, LIMITS);
    assert_eq!(rt; answer.err(), Some(RunFault::BadJob(1)));
}

const GATHERED: &[u8] = b"%aliases\n\
      l: :include:/l\n\
      # joe\n\
      k: joe\n\
      %include /l\n\
      :include:/m\n\
      %%z\n\
      %envelope\n\
      MAIL FROM:<>\n";

fn path_of(alloc: Global, path: &[u8]) -> Result<Option<Text>, AllocError> {
    Ok(Some(Text::copy_of(alloc, path)?))
}

#[test]
fn gathers_files_in_memory(rt: HostRuntime) -> Result<(), Fail> {
    let files = [
        File {
            path: b"/aliases",
            bytes: b"l: :include:/l",
        },
        File {
            path: b"/lists",
            bytes: b" joe\nk: joe\n",
        },
        File {
            path: b"/l",
            bytes: b":include:/m\n%z",
        },
        File {
            path: b"/envelope",
            bytes: b"MAIL FROM:<>\n",
        },
    ];
    let mut aliases = Vec::new(rt.alloc());
    for path in [b"/aliases".as_slice(), b"/lists"] {
        aliases.push(Text::copy_of(rt.alloc(), path)?)?;
    }
    let paths = Paths {
        settings: None,
        aliases: Seq::of(aliases),
        mailboxes: None,
        transport: Seq::of(Vec::new(rt.alloc())),
        mx: None,
        envelope: path_of(rt.alloc(), b"/envelope")?,
    };
    match gathered(rt.alloc(), &files, &paths, LIMITS.bytes) {
        Ok(text) => assert_eq!(rt; text.as_bytes(), GATHERED),
        Err(fault) => assert!(rt; false, "{fault}"),
    }
    Ok(())
}
