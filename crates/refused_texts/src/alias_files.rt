//! The files that administrators write.
use crate::telling::{tell_of_call, tell_of_case};
use growth_answers::inputs::are_texts;
use growth_answers::{Answer, Seen, Teller, Unready, both, call, judged, lent, lent_mut, twice};
use relay_aliasfile::{
    AliasFile, Entry, FaultKind, IncludeFile, Item, Items, LineFault, MailboxFile, include_names,
    include_names_of, parse_aliases, parse_aliases_by, parse_include, parse_mailboxes,
    parse_mailboxes_by,
};
use relay_text::Text;
use std::alloc::Global;
use std::thread::Threads;

const ALIASES: &[u8] = b"  x\na b: joe\nc:\nc: joe\nd: joe, \"q, kim\n";

const fn fault(line: usize, kind: FaultKind) -> LineFault {
    LineFault { line, kind }
}

fn is_bare(item: &Item, name: &[u8]) -> bool {
    matches!(item, Item::Bare(text) if text.as_bytes() == name)
}

fn is_include(item: &Item, path: &[u8]) -> bool {
    matches!(item, Item::Include(text) if text.as_bytes() == path)
}

fn are_joe(items: &[Item]) -> bool {
    matches!(items, [item] if is_bare(item, b"joe"))
}

fn are_entries(entries: &[Entry]) -> bool {
    match entries {
        [first, second] => {
            first.name.as_bytes() == b"c".as_slice()
                && first.items.is_empty()
                && second.name.as_bytes() == b"d".as_slice()
                && are_joe(second.items.as_slice())
        }
        _ => false,
    }
}

fn is_alias_file(file: &AliasFile) -> bool {
    let faults = [
        fault(1, FaultKind::BadLine),
        fault(2, FaultKind::BadLine),
        fault(3, FaultKind::Empty),
        fault(4, FaultKind::Duplicate),
        fault(5, FaultKind::BadItem),
    ];
    are_entries(file.entries.as_slice()) && file.faults.as_slice() == faults.as_slice()
}

fn reads_aliases(alloc: Global) -> Result<Answer, Unready> {
    match parse_aliases(alloc, ALIASES) {
        Ok(file) => Ok(judged(file, is_alias_file)),
        Err(_) => Ok(Answer::Refused),
    }
}

fn reads_aliases_by<R: Threads + Sync>(rt: &R, alloc: Global) -> Result<Answer, Unready> {
    match parse_aliases_by(rt, alloc, 2, ALIASES) {
        Ok(file) => Ok(judged(file, is_alias_file)),
        Err(_) => Ok(Answer::Refused),
    }
}

fn are_included(alloc: Global, file: &AliasFile) -> Answer {
    match include_names(alloc, file) {
        Ok(names) => judged(names, |names| are_texts(names.as_slice(), &[b"/l", b"/m"])),
        Err(_) => Answer::Refused,
    }
}

fn lists_includes_of_aliases(alloc: Global) -> Result<Seen, Unready> {
    let file = parse_aliases(alloc, b"list: :include:/l\nb: :include:/l, :include:/m\n")?;
    lent(file, |file| Ok(twice!(are_included(alloc, file))))
}

fn is_include_file(file: &IncludeFile) -> bool {
    let are_items = match file.items.as_slice() {
        [first, second] => is_include(first, b"/l") && is_bare(second, b"joe"),
        _ => false,
    };
    are_items && file.faults.as_slice() == [fault(2, FaultKind::BadItem)].as_slice()
}

fn reads_an_include_file(alloc: Global) -> Result<Answer, Unready> {
    match parse_include(alloc, b":include:/l, joe\n\"q\n") {
        Ok(file) => Ok(judged(file, is_include_file)),
        Err(_) => Ok(Answer::Refused),
    }
}

fn is_included(alloc: Global, file: &IncludeFile) -> Answer {
    match include_names_of(alloc, file) {
        Ok(names) => judged(names, |names| are_texts(names.as_slice(), &[b"/l"])),
        Err(_) => Answer::Refused,
    }
}

fn lists_includes_of_an_include_file(alloc: Global) -> Result<Seen, Unready> {
    let file = parse_include(alloc, b":include:/l, joe\n:include:/l\n")?;
    lent(file, |file| Ok(twice!(is_included(alloc, file))))
}

fn is_mailbox_file(file: &MailboxFile) -> bool {
    are_texts(file.names.as_slice(), &[b"joe", b"kim"])
        && file.faults.as_slice() == [fault(2, FaultKind::BadLine)].as_slice()
}

fn reads_mailboxes(alloc: Global) -> Result<Answer, Unready> {
    match parse_mailboxes(alloc, b"Joe\na b\nkim\njoe\n") {
        Ok(file) => Ok(judged(file, is_mailbox_file)),
        Err(_) => Ok(Answer::Refused),
    }
}

fn reads_mailboxes_by<R: Threads + Sync>(rt: &R, alloc: Global) -> Result<Answer, Unready> {
    match parse_mailboxes_by(rt, alloc, 2, b"Joe\na b\nkim\njoe\n") {
        Ok(file) => Ok(judged(file, is_mailbox_file)),
        Err(_) => Ok(Answer::Refused),
    }
}

/// A bare item of this name.
fn bare(alloc: Global, name: &[u8]) -> Result<Item, Unready> {
    Ok(Item::Bare(Text::copy_of(alloc, name)?))
}

/// Whether the items are four of `a` and perhaps a `b`.
fn are_items(items: &[Item], has_more: bool) -> bool {
    match items {
        [a, b, c, d, more @ ..] => {
            let are_more = match more {
                [] => !has_more,
                [last] => has_more && is_bare(last, b"b"),
                _ => false,
            };
            are_more && is_bare(a, b"a") && is_bare(b, b"a") && is_bare(c, b"a") && is_bare(d, b"a")
        }
        _ => false,
    }
}

/// What putting one more item behind four answers.
fn pushed(items: &mut Items, item: Item) -> Answer {
    match items.push(item) {
        Ok(()) => Answer::given(are_items(items.as_slice(), true)),
        Err(_) => Answer::refused(are_items(items.as_slice(), false)),
    }
}

fn push_bare(alloc: Global, items: &mut Items) -> Result<(), Unready> {
    let item = bare(alloc, b"a")?;
    Ok(items.push(item)?)
}

fn push_four(alloc: Global, items: &mut Items) -> Result<(), Unready> {
    for _ in 0..4 {
        push_bare(alloc, items)?;
    }
    Ok(())
}

/// What putting one item behind four answers, and another where it's refused.
fn pushed_again(items: &mut Items, first: Item, again: Item) -> Seen {
    match pushed(items, first) {
        Answer::Refused => Seen::at_last(pushed(items, again)),
        answer => {
            drop(again);
            Seen::at_once(answer)
        }
    }
}

fn pushed_at_last(alloc: Global, items: &mut Items) -> Result<Seen, Unready> {
    push_four(alloc, items)?;
    let (first, again) = both(bare(alloc, b"b"), bare(alloc, b"b"))?;
    Ok(pushed_again(items, first, again))
}

/// Four items lie in the value itself, and a fifth doesn't.
fn adds_to_items(alloc: Global) -> Result<Seen, Unready> {
    lent_mut(Items::new(alloc), |items| pushed_at_last(alloc, items))
}

pub(crate) fn tell<R: Print + AllocGlobal + Threads + Sync>(teller: &mut Teller<'_, R>) {
    let rt = teller.rt;
    let alloc = rt.alloc();
    tell_of_call(teller, "parse_aliases", reads_aliases);
    call!(teller, "parse_aliases_by", reads_aliases_by(rt, alloc));
    tell_of_case(teller, "include_names", lists_includes_of_aliases);
    tell_of_call(teller, "parse_include", reads_an_include_file);
    tell_of_case(
        teller,
        "include_names_of",
        lists_includes_of_an_include_file,
    );
    tell_of_call(teller, "parse_mailboxes", reads_mailboxes);
    call!(teller, "parse_mailboxes_by", reads_mailboxes_by(rt, alloc));
    tell_of_case(teller, "Items::push", adds_to_items);
}
