//! What is returned behind a plan of one transaction: that kim, to whom `a@example.net` wrote too, isn't known.
use crate::inputs::{one, texts};
use crate::telling::{tell_of_call, tell_of_case};
use crate::wire::{is_written, plan};
use growth_answers::inputs::address;
use growth_answers::{Answer, Seen, Teller, Unready, judged, lent, twice};
use relay_ordering::in_order;
use relay_returns::{
    Return, return_line, returned_json_text, returned_plan_text, returned_wire_text,
};
use relay_text::{Address, Seq};
use relay_wire::Plan;
use std::alloc::Global;

const LINE: &[u8] = b"missing kim in envelope for <kim@example.org>";

const PLAN: &[u8] = b"plan 1 transactions 1 recipients 0 findings\n\
    transaction 1\n\
    from <a@example.net>\n\
    via lmtp unix:mbox\n\
    host unix:mbox\n\
    to <joe@example.org>\n\
    return 1\n\
    from <a@example.net>\n\
    missing kim in envelope for <kim@example.org>\n\
    end\n";

const COMMANDS: &[u8] = b"plan 1 transactions 1 recipients 0 findings\n\
    transaction 1\n\
    via lmtp unix:mbox\n\
    host unix:mbox\n\
    script 84\n\
    LHLO relay.example.org\r\n\
    MAIL FROM:<a@example.net>\r\n\
    RCPT TO:<joe@example.org>\r\n\
    DATA\r\n\
    return 1\n\
    from <a@example.net>\n\
    missing kim in envelope for <kim@example.org>\n\
    end\n";

const OBJECT: &[u8] =
    b"{\"plan\":{\"transactions\":1,\"recipients\":1,\"findings\":0},\"transactions\":[{\"transaction\":1,\"from\":\"<a@example.net>\",\"transport\":\"lmtp\",\"nexthop\":\"unix:mbox\",\"hosts\":[\"unix:mbox\"],\"recipients\":[\"<joe@example.org>\"]}],\"returns\":[{\"return\":1,\"from\":\"<a@example.net>\",\"lines\":[\"missing kim in envelope for <kim@example.org>\"]}],\"findings\":[]}\n";

fn block(alloc: Global) -> Result<Return, Unready> {
    let lines = texts(alloc, &[LINE])?;
    let sender = address(alloc, b"a@example.net")?;
    Ok(Return {
        sender: Some(sender),
        lines: Seq::of(lines),
    })
}

fn blocks(alloc: Global) -> Result<Vec<Return>, Unready> {
    let block = block(alloc)?;
    Ok(one(alloc, block)?)
}

fn is_line(alloc: Global, recipient: &Address) -> Answer {
    match return_line(alloc, b"finding missing kim in envelope", recipient) {
        Ok(line) => Answer::given(line.as_slice() == LINE),
        Err(_) => Answer::Refused,
    }
}

fn writes_a_line(alloc: Global) -> Result<Seen, Unready> {
    let recipient = address(alloc, b"kim")?;
    lent(recipient, |recipient| Ok(twice!(is_line(alloc, recipient))))
}

fn are_sorted(blocks: &[Return]) -> bool {
    matches!(
        blocks,
        [block] if matches!(block.lines.as_slice(), [line] if line.as_bytes() == LINE)
    )
}

fn sorts_blocks(alloc: Global) -> Result<Answer, Unready> {
    let blocks = blocks(alloc)?;
    if blocks.len() != 1 {
        return Err(Unready::Wrong);
    }
    Ok(match in_order(alloc, blocks) {
        Ok(sorted) => judged(sorted, |sorted| are_sorted(sorted.as_slice())),
        Err(_) => Answer::Refused,
    })
}

fn plan_is_written(alloc: Global, plan: &Plan) -> Result<Seen, Unready> {
    let blocks = blocks(alloc)?;
    lent(blocks, |blocks| {
        Ok(twice!({ is_written(returned_plan_text(alloc, plan, blocks), PLAN) }))
    })
}

fn writes_a_plan(alloc: Global) -> Result<Seen, Unready> {
    let plan = plan(alloc)?;
    lent(plan, |plan| plan_is_written(alloc, plan))
}

fn commands_are_written(alloc: Global, plan: &Plan) -> Result<Seen, Unready> {
    let blocks = blocks(alloc)?;
    lent(blocks, |blocks| {
        Ok(twice!({ is_written(returned_wire_text(alloc, plan, blocks), COMMANDS) }))
    })
}

fn writes_commands(alloc: Global) -> Result<Seen, Unready> {
    let plan = plan(alloc)?;
    lent(plan, |plan| commands_are_written(alloc, plan))
}

fn object_is_written(alloc: Global, plan: &Plan) -> Result<Seen, Unready> {
    let blocks = blocks(alloc)?;
    lent(blocks, |blocks| {
        Ok(twice!({ is_written(returned_json_text(alloc, plan, blocks), OBJECT) }))
    })
}

fn writes_an_object(alloc: Global) -> Result<Seen, Unready> {
    let plan = plan(alloc)?;
    lent(plan, |plan| object_is_written(alloc, plan))
}

pub(crate) fn tell<R: Print + AllocGlobal>(teller: &mut Teller<'_, R>) {
    tell_of_case(teller, "return_line", writes_a_line);
    tell_of_call(teller, "in_order", sorts_blocks);
    tell_of_case(teller, "returned_plan_text", writes_a_plan);
    tell_of_case(teller, "returned_wire_text", writes_commands);
    tell_of_case(teller, "returned_json_text", writes_an_object);
}
