//! That several threads take part in a run.
use crate::devices::{Paper, Pieces};
use crate::limits::LIMITS;
use crate::plans::job_of;
use aliasplan::{Form, Gate, Options, run};
use std::hint::spin_loop;
use std::sync::atomic::{AtomicBool, Ordering};
use std::test::Fail;

/// Holds pieces 0 and 2 until both were entered, but no longer than ten million turns.
#[derive(Drop)]
struct Meeting {
    first: AtomicBool,
    third: AtomicBool,
    late: AtomicBool,
}

impl Gate for Meeting {
    fn enter(&self, piece: usize) {
        if piece == 0 {
            self.first.store(true, Ordering::SeqCst);
        } else if piece == 2 {
            self.third.store(true, Ordering::SeqCst);
        } else {
            return;
        }
        for _ in 0..10_000_000 {
            if self.first.load(Ordering::SeqCst) && self.third.load(Ordering::SeqCst) {
                return;
            }
            spin_loop();
        }
        self.late.store(true, Ordering::SeqCst);
    }
}

/// Three recipients, so that the first round has three pieces of one pair.
const LINES: &[u8] = b"%mx\n\
      example.net MX 10 mx1.example.net\n\
      %envelope\n\
      MAIL FROM:<a@example.com>\n\
      RCPT TO:<u001@example.net>\n\
      RCPT TO:<u002@example.net>\n\
      RCPT TO:<u003@example.net>\n";

const PLAN: &[u8] = b"plan 1 transactions 3 recipients 0 findings\n\
      transaction 1\n\
      from <a@example.com>\n\
      via smtp example.net\n\
      host mx1.example.net\n\
      to <u001@example.net>\n\
      to <u002@example.net>\n\
      to <u003@example.net>\n\
      end\n";

#[test]
fn two_threads_meet(rt: HostRuntime) -> Result<(), Fail> {
    let job = job_of(rt.alloc(), LINES)?;
    let mut reader = Pieces::new(job.as_slice(), usize::MAX, usize::MAX);
    let mut writer = Paper {
        text: Vec::new(rt.alloc()),
        room: usize::MAX,
        failed: false,
    };
    let options = Options {
        form: Form::Plan,
        workers: 2,
        cut: 1,
        key: 0,
    };
    let gate = Meeting {
        first: AtomicBool::new(false),
        third: AtomicBool::new(false),
        late: AtomicBool::new(false),
    };
    let answer = run(
        &rt,
        rt.alloc(),
        &mut reader,
        &mut writer,
        options,
        LIMITS,
        &gate,
    );
    assert!(rt; answer.is_ok(), "{answer:?}");
    assert_eq!(rt; writer.text.as_slice(), PLAN);
    assert!(rt;
        !gate.late.load(Ordering::SeqCst),
        "one thread waited alone"
    );
    Ok(())
}
