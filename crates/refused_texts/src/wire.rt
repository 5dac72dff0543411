//! The texts of a plan of one transaction, from `a@example.net` to joe's mailbox.
use crate::inputs::one;
use crate::telling::{tell_of_call, tell_of_case};
use crate::words::two_findings;
use growth_answers::inputs::{address, are_texts, is_address};
use growth_answers::{Answer, Seen, Teller, Unready, both, call, judged, lent, twice};
use relay_routes::{Hosts, Transport};
use relay_sharing::Crew;
use relay_text::{Address, Seq, Text};
use relay_wire::{
    Finding, FindingLines, Greeting, Place, Plan, Planned, Script, check_text, finding_line,
    is_hostname, json_text, plan_text, read_script, script, wire_text,
};
use std::alloc::{AllocError, Global};
use std::slice;
use std::thread::Threads;

const HOSTNAME: &[u8] = b"relay.example.org";

const PLAN: &[u8] = b"plan 1 transactions 1 recipients 0 findings\n\
    transaction 1\n\
    from <a@example.net>\n\
    via lmtp unix:mbox\n\
    host unix:mbox\n\
    to <joe@example.org>\n\
    end\n";

const PLAN_WITH_FINDINGS: &[u8] = b"plan 1 transactions 1 recipients 2 findings\n\
    transaction 1\n\
    from <a@example.net>\n\
    via lmtp unix:mbox\n\
    host unix:mbox\n\
    to <joe@example.org>\n\
    finding aliases line 3 badline\n\
    finding transport line 2 duplicate\n\
    end\n";

const OBJECT: &[u8] =
    b"{\"plan\":{\"transactions\":1,\"recipients\":1,\"findings\":0},\"transactions\":[{\"transaction\":1,\"from\":\"<a@example.net>\",\"transport\":\"lmtp\",\"nexthop\":\"unix:mbox\",\"hosts\":[\"unix:mbox\"],\"recipients\":[\"<joe@example.org>\"]}],\"findings\":[]}\n";

const COMMANDS: &[u8] = b"plan 1 transactions 1 recipients 0 findings\n\
    transaction 1\n\
    via lmtp unix:mbox\n\
    host unix:mbox\n\
    script 84\n\
    LHLO relay.example.org\r\n\
    MAIL FROM:<a@example.net>\r\n\
    RCPT TO:<joe@example.org>\r\n\
    DATA\r\n\
    end\n";

const SCRIPT: &[u8] = b"LHLO relay.example.org\r\n\
    MAIL FROM:<a@example.net>\r\n\
    RCPT TO:<joe@example.org>\r\n\
    DATA\r\n";

fn to_joe(alloc: Global) -> Result<Vec<Address>, Unready> {
    let to = one(alloc, address(alloc, b"joe")?)?;
    Ok(to)
}

fn text(alloc: Global, bytes: &[u8]) -> Result<Text, Unready> {
    Ok(Text::copy_of(alloc, bytes)?)
}

fn hosts(alloc: Global) -> Result<Hosts, Unready> {
    Ok(Hosts::one(alloc, text(alloc, b"unix:mbox")?)?)
}

fn sender(alloc: Global) -> Result<Address, Unready> {
    Ok(address(alloc, b"a@example.net")?)
}

fn planned(alloc: Global) -> Result<Planned, Unready> {
    let ends = both(sender(alloc), to_joe(alloc));
    let via = both(text(alloc, b"unix:mbox"), hosts(alloc));
    let ((from, to), (nexthop, hosts)) = both(ends, via)?;
    Ok(Planned {
        from: Some(from),
        transport: Transport::Lmtp,
        nexthop,
        hosts,
        to: Seq::of(to),
    })
}

fn transactions(alloc: Global) -> Result<Vec<Planned>, Unready> {
    let transactions = one(alloc, planned(alloc)?)?;
    Ok(transactions)
}

pub(crate) fn plan(alloc: Global) -> Result<Plan, Unready> {
    let (hostname, transactions) = both(text(alloc, HOSTNAME), transactions(alloc))?;
    Ok(Plan {
        hostname,
        transactions: Seq::of(transactions),
        findings: Seq::of(Vec::new(alloc)),
    })
}

/// Whether a text that was written is this one.
pub(crate) fn is_written(text: Result<Text, AllocError>, wanted: &[u8]) -> Answer {
    match text {
        Ok(text) => judged(text, |text| text.as_bytes() == wanted),
        Err(_) => Answer::Refused,
    }
}

fn writes_a_plan(alloc: Global) -> Result<Seen, Unready> {
    let plan = plan(alloc)?;
    lent(
        plan,
        |plan| Ok(twice!(is_written(plan_text(alloc, plan), PLAN))),
    )
}

fn are_parts_written<R: Threads + Sync>(
    crew: &Crew<'_, R>,
    transactions: &[Planned],
    lines: FindingLines,
) -> Answer {
    match lines.plan_texts_by(crew, transactions) {
        Ok(written) => judged(written, |written| {
            written.recipients == 1
                && written.findings == 2
                && are_texts(written.texts.as_slice(), &[PLAN_WITH_FINDINGS])
        }),
        Err(_) => Answer::Refused,
    }
}

fn writes_a_plan_in_parts<R: Threads + Sync>(crew: &Crew<'_, R>) -> Result<Answer, Unready> {
    let (transactions, lines) = both(transactions(crew.alloc), two_findings(crew.alloc))?;
    let answer = are_parts_written(crew, &transactions, lines);
    drop(transactions);
    Ok(answer)
}

fn writes_commands(alloc: Global) -> Result<Seen, Unready> {
    let plan = plan(alloc)?;
    lent(
        plan,
        |plan| Ok(twice!(is_written(wire_text(alloc, plan), COMMANDS))),
    )
}

fn writes_an_object(alloc: Global) -> Result<Seen, Unready> {
    let plan = plan(alloc)?;
    lent(
        plan,
        |plan| Ok(twice!(is_written(json_text(alloc, plan), OBJECT))),
    )
}

fn writes_a_finding(alloc: Global) -> Result<Seen, Unready> {
    let (name, alias) = both(text(alloc, b"kim"), text(alloc, b"a b"))?;
    let finding = Finding::Missing(name, Place::Alias(alias));
    lent(finding, |finding| {
        Ok(twice!({
            is_written(
                finding_line(alloc, finding),
                b"finding missing kim in alias \"a b\"",
            )
        }))
    })
}

fn check_is_written(alloc: Global, finding: &Text, note: &Text) -> Answer {
    is_written(
        check_text(alloc, slice::from_ref(finding), slice::from_ref(note)),
        b"check 1 findings 1 notes\nfinding aliases line 1 badline\nnote something\nend\n",
    )
}

fn writes_a_check(alloc: Global) -> Result<Seen, Unready> {
    let finding = text(alloc, b"finding aliases line 1 badline");
    let (finding, note) = both(finding, text(alloc, b"note something"))?;
    let seen = twice!(check_is_written(alloc, &finding, &note));
    drop(finding);
    drop(note);
    Ok(seen)
}

fn script_is_written(alloc: Global, planned: &Planned) -> Result<Seen, Unready> {
    if !is_hostname(HOSTNAME) {
        return Err(Unready::Wrong);
    }
    Ok(twice!(is_written(script(alloc, planned, HOSTNAME), SCRIPT)))
}

fn writes_a_script(alloc: Global) -> Result<Seen, Unready> {
    let planned = planned(alloc)?;
    lent(planned, |planned| script_is_written(alloc, planned))
}

fn is_script(script: &Script) -> bool {
    script.greeting == Greeting::Lhlo
        && script.hostname.as_bytes() == HOSTNAME
        && script
            .from
            .as_ref()
            .is_some_and(|from| is_address(from, b"a", b"example.net"))
        && matches!(script.to.as_slice(), [to] if is_address(to, b"joe", b"example.org"))
}

fn reads_a_script(alloc: Global) -> Result<Answer, Unready> {
    match read_script(alloc, SCRIPT) {
        Ok(Some(script)) => Ok(judged(script, is_script)),
        Ok(None) => Ok(Answer::Wrong),
        Err(_) => Ok(Answer::Refused),
    }
}

pub(crate) fn tell<R: Print + AllocGlobal + Threads + Sync>(teller: &mut Teller<'_, R>) {
    tell_of_case(teller, "plan_text", writes_a_plan);
    tell_of_case(teller, "wire_text", writes_commands);
    tell_of_case(teller, "json_text", writes_an_object);
    tell_of_case(teller, "finding_line", writes_a_finding);
    tell_of_case(teller, "check_text", writes_a_check);
    tell_of_case(teller, "script", writes_a_script);
    tell_of_call(teller, "read_script", reads_a_script);
    let crew = Crew {
        rt: teller.rt,
        alloc: teller.rt.alloc(),
        workers: 2,
    };
    call!(
        teller,
        "FindingLines::plan_texts_by",
        writes_a_plan_in_parts(&crew)
    );
}
