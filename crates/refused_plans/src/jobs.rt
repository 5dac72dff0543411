//! Jobs and their plans' texts, worked by hand, and what a job says.
use growth_answers::inputs::{are_texts, is_address};
use growth_answers::{Answer, Teller, Unready, call, judged};
use relay_job::{Job, RunFault, Settings, parse_job, parse_job_by, parse_tables};
use relay_routes::Transport;
use std::alloc::{AllocError, Global};
use std::thread::Threads;

/// A message to one mailbox.
pub const FIRST_JOB: &[u8] = b"%settings\n\
    myhostname = relay.example.org\n\
    myorigin = example.org\n\
    mydestination = example.org, localhost\n\
    recipient_delimiter = +\n\
    default_destination_recipient_limit = 50\n\
    mailbox_transport = lmtp:unix:mbox\n\
    seed = 0\n\
    %mailboxes\n\
    joe\n\
    %envelope\n\
    MAIL FROM:<a@example.net>\n\
    RCPT TO:<joe@example.org>\n";

pub const FIRST_PLAN: &[u8] = b"plan 1 transactions 1 recipients 0 findings\n\
    transaction 1\n\
    from <a@example.net>\n\
    via lmtp unix:mbox\n\
    host unix:mbox\n\
    to <joe@example.org>\n\
    end\n";

/// A list with an owner and an include file, two lists that lead to each other, and a name that nobody has.
pub const LISTS_JOB: &[u8] = b"%settings\n\
    myhostname = relay.example.org\n\
    myorigin = example.org\n\
    mydestination = example.org, localhost\n\
    recipient_delimiter = +\n\
    smtp_destination_recipient_limit = 2\n\
    %aliases\n\
    club: :include:/lists/club, joe\n\
    owner-club: kim\n\
    east: west, kim\n\
    west: east, bob\n\
    %include /lists/club\n\
    amy@example.net\n\
    ben@example.net\n\
    cat@example.com\n\
    dan@example.net\n\
    %mailboxes\n\
    joe\n\
    kim\n\
    %mx\n\
    example.net MX 10 mx1.example.net\n\
    example.net MX 20 mx2.example.net\n\
    example.com A\n\
    %envelope\n\
    MAIL FROM:<editor@example.com>\n\
    RCPT TO:<club@example.org>\n\
    RCPT TO:<east@example.org>\n";

pub const LISTS_PLAN: &[u8] = b"plan 5 transactions 6 recipients 3 findings\n\
    transaction 1\n\
    from <editor@example.com>\n\
    via lmtp unix:mailbox\n\
    host unix:mailbox\n\
    to <kim@example.org>\n\
    transaction 2\n\
    from <owner-club@example.org>\n\
    via lmtp unix:mailbox\n\
    host unix:mailbox\n\
    to <joe@example.org>\n\
    transaction 3\n\
    from <owner-club@example.org>\n\
    via smtp example.com\n\
    host example.com\n\
    to <cat@example.com>\n\
    transaction 4\n\
    from <owner-club@example.org>\n\
    via smtp example.net\n\
    host mx1.example.net\n\
    host mx2.example.net\n\
    to <amy@example.net>\n\
    to <ben@example.net>\n\
    transaction 5\n\
    from <owner-club@example.org>\n\
    via smtp example.net\n\
    host mx1.example.net\n\
    host mx2.example.net\n\
    to <dan@example.net>\n\
    finding loop alias east\n\
    finding loop alias west\n\
    finding missing bob in alias west\n\
    end\n";

pub const LISTS_PLAN_WITH_RETURNS: &[u8] = b"plan 5 transactions 6 recipients 3 findings\n\
    transaction 1\n\
    from <editor@example.com>\n\
    via lmtp unix:mailbox\n\
    host unix:mailbox\n\
    to <kim@example.org>\n\
    transaction 2\n\
    from <owner-club@example.org>\n\
    via lmtp unix:mailbox\n\
    host unix:mailbox\n\
    to <joe@example.org>\n\
    transaction 3\n\
    from <owner-club@example.org>\n\
    via smtp example.com\n\
    host example.com\n\
    to <cat@example.com>\n\
    transaction 4\n\
    from <owner-club@example.org>\n\
    via smtp example.net\n\
    host mx1.example.net\n\
    host mx2.example.net\n\
    to <amy@example.net>\n\
    to <ben@example.net>\n\
    transaction 5\n\
    from <owner-club@example.org>\n\
    via smtp example.net\n\
    host mx1.example.net\n\
    host mx2.example.net\n\
    to <dan@example.net>\n\
    return 1\n\
    from <editor@example.com>\n\
    missing bob in alias west for <east@example.org>\n\
    finding loop alias east\n\
    finding loop alias west\n\
    finding missing bob in alias west\n\
    end\n";

/// That bob is missing, for the recipient who leads to him.
pub const LISTS_RETURN: &[u8] = b"missing bob in alias west for <east@example.org>";

pub const LISTS_DOMAINS: &[u8] = b"example.com\n\
    example.net\n";

/// A list in a list, of which the inner one has an owner; it's written to with an extension, and lists names with extensions.
pub const OWNERS_JOB: &[u8] = b"%settings\n\
    myhostname = relay.example.org\n\
    myorigin = example.org\n\
    recipient_delimiter = +\n\
    mailbox_transport = lmtp:unix:mbox\n\
    %mx\n\
    example.net MX 10 mx1.example.net\n\
    %mailboxes\n\
    joe\n\
    kim\n\
    %aliases\n\
    outer: inner, kim+a\n\
    inner: lee+x@example.net, joe+b\n\
    owner-inner: joe\n\
    %envelope\n\
    MAIL FROM:<a@example.com>\n\
    RCPT TO:<outer+today@example.org>\n";

pub const OWNERS_PLAN: &[u8] = b"plan 3 transactions 3 recipients 0 findings\n\
    transaction 1\n\
    from <a@example.com>\n\
    via lmtp unix:mbox\n\
    host unix:mbox\n\
    to <kim+a@example.org>\n\
    transaction 2\n\
    from <owner-inner@example.org>\n\
    via lmtp unix:mbox\n\
    host unix:mbox\n\
    to <joe+b@example.org>\n\
    transaction 3\n\
    from <owner-inner@example.org>\n\
    via smtp example.net\n\
    host mx1.example.net\n\
    to <lee+x@example.net>\n\
    end\n";

/// A list in a list of mailboxes, of which the inner one has an owner.
pub const MAILBOXES_JOB: &[u8] = b"%settings\n\
    myhostname = relay.example.org\n\
    myorigin = example.org\n\
    mailbox_transport = lmtp:unix:mbox\n\
    %mailboxes\n\
    joe\n\
    kim\n\
    lee\n\
    %aliases\n\
    outer: inner, kim\n\
    inner: kim, lee\n\
    owner-inner: joe\n\
    %envelope\n\
    MAIL FROM:<a@example.com>\n\
    RCPT TO:<outer@example.org>\n";

pub const MAILBOXES_PLAN: &[u8] = b"plan 2 transactions 3 recipients 0 findings\n\
    transaction 1\n\
    from <a@example.com>\n\
    via lmtp unix:mbox\n\
    host unix:mbox\n\
    to <kim@example.org>\n\
    transaction 2\n\
    from <owner-inner@example.org>\n\
    via lmtp unix:mbox\n\
    host unix:mbox\n\
    to <kim@example.org>\n\
    to <lee@example.org>\n\
    end\n";

/// What stands before the items of a list.
const EQUAL_FRONT: &[u8] = b"%settings\n\
    myhostname = relay.example.org\n\
    myorigin = example.org\n\
    %mx\n\
    example.net MX 10 mx1.example.net\n\
    %envelope\n\
    MAIL FROM:<>\n\
    RCPT TO:<big@example.org>\n\
    %aliases\n\
    big: ";

pub const EQUAL_PLAN: &[u8] = b"plan 1 transactions 1 recipients 0 findings\n\
    transaction 1\n\
    from <>\n\
    via smtp example.net\n\
    host mx1.example.net\n\
    to <kim@example.net>\n\
    end\n";

/// A list of ten thousand equal items.
pub(crate) fn equal_items_job(alloc: Global) -> Result<Vec<u8>, AllocError> {
    let mut job = Vec::from_slice(alloc, EQUAL_FRONT)?;
    for _ in 0..10_000 {
        job.extend_from_slice(b"kim@example.net, ")?;
    }
    Ok(job)
}

/// Whether the settings are those of a message to one mailbox.
fn are_settings(settings: &Settings) -> bool {
    let via = &settings.mailbox_transport;
    settings.hostname.as_bytes() == b"relay.example.org".as_slice()
        && settings.origin.as_bytes() == b"example.org".as_slice()
        && are_texts(
            settings.destinations.as_slice(),
            &[b"example.org", b"localhost"],
        )
        && settings.delimiter == Some(b'+')
        && settings.lmtp_limit == 50
        && via.transport == Transport::Lmtp
        && via
            .nexthop
            .as_ref()
            .is_some_and(|nexthop| nexthop.as_bytes() == b"unix:mbox".as_slice())
}

fn is_first_job(job: &Job) -> bool {
    are_settings(&job.settings)
        && job.mailboxes.as_bytes() == b"joe\n".as_slice()
        && job.includes.is_empty()
        && job
            .sender
            .as_ref()
            .is_some_and(|sender| is_address(sender, b"a", b"example.net"))
        && matches!(job.recipients.as_slice(), [to] if is_address(to, b"joe", b"example.org"))
}

fn reads_a_job(alloc: Global) -> Result<Answer, Unready> {
    match parse_job(alloc, FIRST_JOB) {
        Ok(job) => Ok(judged(job, is_first_job)),
        Err(RunFault::Memory) => Ok(Answer::Refused),
        Err(_) => Ok(Answer::Wrong),
    }
}

fn reads_a_job_by<R: Threads + Sync>(rt: &R, alloc: Global) -> Result<Answer, Unready> {
    match parse_job_by(rt, alloc, 2, FIRST_JOB) {
        Ok(job) => Ok(judged(job, is_first_job)),
        Err(RunFault::Memory) => Ok(Answer::Refused),
        Err(_) => Ok(Answer::Wrong),
    }
}

/// Whether these are the first job's settings and mailboxes, for nobody.
fn are_first_tables(tables: &Job) -> bool {
    are_settings(&tables.settings)
        && tables.mailboxes.as_bytes() == b"joe\n".as_slice()
        && tables.sender.is_none()
        && tables.recipients.is_empty()
}

fn reads_tables(alloc: Global) -> Result<Answer, Unready> {
    match parse_tables(alloc, FIRST_JOB) {
        Ok(tables) => Ok(judged(tables, are_first_tables)),
        Err(RunFault::Memory) => Ok(Answer::Refused),
        Err(_) => Ok(Answer::Wrong),
    }
}

fn has_lists(job: &Job) -> bool {
    match job.includes.as_slice() {
        [include] => {
            include.path.as_bytes() == b"/lists/club".as_slice()
                && include.bytes.len() == 64
                && job.recipients.len() == 2
        }
        _ => false,
    }
}

fn reads_a_job_of_lists(alloc: Global) -> Result<Answer, Unready> {
    match parse_job(alloc, LISTS_JOB) {
        Ok(job) => Ok(judged(job, has_lists)),
        Err(RunFault::Memory) => Ok(Answer::Refused),
        Err(_) => Ok(Answer::Wrong),
    }
}

pub(crate) fn tell<R: Print + AllocGlobal + Threads + Sync>(teller: &mut Teller<'_, R>) {
    let rt = teller.rt;
    let alloc = rt.alloc();
    call!(teller, "parse_job", reads_a_job(alloc));
    call!(teller, "parse_job_by", reads_a_job_by(rt, alloc));
    call!(teller, "parse_job, lists", reads_a_job_of_lists(alloc));
    call!(teller, "parse_tables", reads_tables(alloc));
}
