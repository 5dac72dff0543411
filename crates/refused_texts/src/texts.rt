//! Addresses, names and lines of text.
use crate::inputs::texts;
use crate::telling::{tell_of_call, tell_of_case};
use growth_answers::inputs::{address, are_texts, is_address};
use growth_answers::{Answer, Seen, Teller, Unready, judged, lent, lent_mut, twice};
use relay_text::{
    Address, FirstPlaces, Line, LogicalLines, Text, TextFault, TextSet, logical_lines, parse_name,
    parse_path, quoted_content, write_local, write_path,
};
use std::alloc::{AllocError, Global};

/// A text of 48 bytes, more than lie in the value itself.
pub(crate) const LONG: &[u8] = b"local-part-that-does-not-lie-in-the-value-itself";

/// The same behind `a..`.
const DOTTED: &[u8] = b"a..local-part-that-does-not-lie-in-the-value-itself";

/// What is read of this text, which spells an address.
fn read_address(alloc: Global, text: &[u8], local: &[u8], domain: &[u8]) -> Answer {
    match address(alloc, text) {
        Ok(address) => judged(address, |address| is_address(address, local, domain)),
        Err(TextFault::Memory) => Answer::Refused,
        Err(_) => Answer::Wrong,
    }
}

fn reads_an_address(alloc: Global) -> Result<Answer, Unready> {
    Ok(read_address(alloc, LONG, LONG, b"example.org"))
}

fn reads_a_quoted_address(alloc: Global) -> Result<Answer, Unready> {
    Ok(read_address(alloc, b"\"a\\\"b\"@X.net", b"a\"b", b"x.net"))
}

fn is_made(alloc: Global, address: &Address) -> Answer {
    match Address::new(alloc, address.local(), address.domain()) {
        Ok(made) => judged(made, |made| is_address(made, DOTTED, b"x")),
        Err(_) => Answer::Refused,
    }
}

fn makes_an_address(alloc: Global) -> Result<Answer, Unready> {
    let address = address(
        alloc,
        b"a..local-part-that-does-not-lie-in-the-value-itself@x",
    )?;
    lent(address, |address| Ok(is_made(alloc, address)))
}

fn is_copied(alloc: Global, address: &Address) -> Answer {
    match address.copy(alloc) {
        Ok(copy) => judged(copy, |copy| is_address(copy, DOTTED, b"x")),
        Err(_) => Answer::Refused,
    }
}

fn copies_an_address(alloc: Global) -> Result<Seen, Unready> {
    let address = address(
        alloc,
        b"a..local-part-that-does-not-lie-in-the-value-itself@x",
    )?;
    lent(address, |address| Ok(twice!(is_copied(alloc, address))))
}

#[tactic(auto, unfolding(relay_text::specs::Addresses::is_origin, relay_text::specs::Addresses::is_domain))]
fn path(alloc: Global, text: &[u8]) -> Result<Option<Address>, TextFault> {
    parse_path(alloc, text, b"example.org")
}

fn reads_a_path(alloc: Global) -> Result<Answer, Unready> {
    match path(alloc, b"<local-part-that-does-not-lie-in-the-value-itself>") {
        Ok(Some(address)) => Ok(judged(address, |address| {
            is_address(address, LONG, b"example.org")
        })),
        Err(TextFault::Memory) => Ok(Answer::Refused),
        _ => Ok(Answer::Wrong),
    }
}

fn reads_the_null_path(alloc: Global) -> Result<Answer, Unready> {
    Ok(Answer::given(matches!(path(alloc, b"<>"), Ok(None))))
}

fn reads_a_name(alloc: Global) -> Result<Answer, Unready> {
    match parse_name(alloc, b"\"a @\\\\b\"") {
        Ok(name) => Ok(judged(name, |name| name.as_bytes() == b"a @\\b".as_slice())),
        Err(TextFault::Memory) => Ok(Answer::Refused),
        Err(_) => Ok(Answer::Wrong),
    }
}

fn reads_a_quoted_string(alloc: Global) -> Result<Answer, Unready> {
    match quoted_content(alloc, b"\"|p -x, y\"") {
        Ok(Some(content)) => Ok(judged(content, |content| {
            content.as_bytes() == b"|p -x, y".as_slice()
        })),
        Ok(None) => Ok(Answer::Wrong),
        Err(_) => Ok(Answer::Refused),
    }
}

/// What a call answered that writes behind an `x` that stands there already, and what stands there then.
fn is_behind_x(written: Result<(), AllocError>, out: &[u8], wanted: &[u8]) -> Answer {
    match written {
        Ok(()) => Answer::given(out == wanted),
        Err(_) => Answer::refused(out == b"x".as_slice()),
    }
}

fn path_is_written(address: &Address, out: &mut Vec<u8>) -> Answer {
    let written = write_path(Some(address), out);
    is_behind_x(written, out, b"x<\"a\\\"b\"@x.net>")
}

/// The same twice, at most.
fn path_is_written_at_last(alloc: Global, address: &Address) -> Result<Seen, Unready> {
    let mut out = Vec::from_slice(alloc, b"x")?;
    let seen = twice!(path_is_written(address, &mut out));
    drop(out);
    Ok(seen)
}

fn writes_a_path(alloc: Global) -> Result<Seen, Unready> {
    let address = address(alloc, b"\"a\\\"b\"@X.net")?;
    let seen = path_is_written_at_last(alloc, &address);
    drop(address);
    seen
}

fn local_part_is_written(out: &mut Vec<u8>) -> Answer {
    let written = write_local(b"a..b", out);
    is_behind_x(written, out, b"x\"a..b\"")
}

fn writes_a_local_part(alloc: Global) -> Result<Seen, Unready> {
    let mut out = Vec::from_slice(alloc, b"x")?;
    let seen = twice!(local_part_is_written(&mut out));
    drop(out);
    Ok(seen)
}

fn copies_a_text(alloc: Global) -> Result<Answer, Unready> {
    match Text::copy_of(alloc, LONG) {
        Ok(text) => Ok(judged(text, |text| text.as_bytes() == LONG)),
        Err(_) => Ok(Answer::Refused),
    }
}

fn folds_a_text(alloc: Global) -> Result<Answer, Unready> {
    match Text::folded_copy_of(alloc, b"LOCAL-part-that-does-not-lie-in-the-value-itself") {
        Ok(text) => Ok(judged(text, |text| text.as_bytes() == LONG)),
        Err(_) => Ok(Answer::Refused),
    }
}

fn appended(alloc: Global, text: &mut Text) -> Answer {
    match text.append(alloc, LONG) {
        Ok(()) => Answer::given(text.as_bytes() == DOTTED),
        Err(_) => Answer::refused(text.as_bytes() == b"a..".as_slice()),
    }
}

fn appends_to_a_text(alloc: Global) -> Result<Seen, Unready> {
    let text = Text::copy_of(alloc, b"a..")?;
    lent_mut(text, |text| Ok(twice!(appended(alloc, text))))
}

/// A line that continues none, a logical line of two parts with a comment between them, and one of one part.
const LINES: &[u8] = b" x\na: b\n# note\n  c\nd\n";

fn are_lines(lines: &[Line]) -> bool {
    match lines {
        [first, second] => {
            first.number == 2
                && first.text.as_bytes() == b"a: b  c".as_slice()
                && second.number == 5
                && second.text.as_bytes() == b"d".as_slice()
        }
        _ => false,
    }
}

fn joins_lines(alloc: Global) -> Result<Answer, Unready> {
    match logical_lines(alloc, LINES) {
        Ok(lines) => Ok(judged(lines, |lines| {
            are_lines(lines.lines.as_slice()) && lines.orphans.as_slice() == [1].as_slice()
        })),
        Err(_) => Ok(Answer::Refused),
    }
}

fn begins_to_read_lines(alloc: Global) -> Result<Answer, Unready> {
    match LogicalLines::new(alloc, LINES) {
        Ok(lines) => Ok(judged(lines, |lines| { lines.orphans() == [1].as_slice() })),
        Err(_) => Ok(Answer::Refused),
    }
}

/// What the next line is; where it's refused, it's left.
fn next_line(lines: &mut LogicalLines<'_>, joined: &mut Vec<u8>) -> Answer {
    match lines.next_line(joined) {
        Ok(Some(line)) => Answer::given(line.number == 2 && line.text == b"a: b  c".as_slice()),
        Ok(None) => Answer::Wrong,
        Err(_) => Answer::Refused,
    }
}

fn joins_a_line(alloc: Global) -> Result<Seen, Unready> {
    let mut lines = LogicalLines::new(alloc, LINES)?;
    let mut joined = Vec::new(alloc);
    let seen = twice!(next_line(&mut lines, &mut joined));
    drop(joined);
    drop(lines);
    Ok(seen)
}

fn are_in_order(alloc: Global, texts: &[Text]) -> Answer {
    match TextSet::of(alloc, texts) {
        Ok(set) => judged(set, |set| {
            set.contains(b"a") && set.contains(b"b") && !set.contains(b"c")
        }),
        Err(_) => Answer::Refused,
    }
}

fn puts_texts_in_order(alloc: Global) -> Result<Answer, Unready> {
    let texts = texts(alloc, &[b"b", b"a", b"b"])?;
    lent(texts, |texts| Ok(are_in_order(alloc, texts)))
}

/// What adding a text answers; where it's refused, the set doesn't have it.
fn added(set: &mut TextSet, text: Vec<u8>, byte: u8) -> Answer {
    match set.insert(text) {
        Ok(is_new) => Answer::given(is_new && set.contains(&[byte])),
        Err(_) => Answer::refused(!set.contains(&[byte])),
    }
}

/// The same, again where it's refused.
fn added_at_last(alloc: Global, set: &mut TextSet, byte: u8) -> Result<Seen, Unready> {
    let text = Vec::from_slice(alloc, &[byte])?;
    let again = Vec::from_slice(alloc, &[byte])?;
    Ok(match added(set, text, byte) {
        Answer::Refused => Seen::at_last(added(set, again, byte)),
        answer => Seen::at_once(answer),
    })
}

/// So many texts that the tree grows by more than one node.
fn adds_texts(alloc: Global, set: &mut TextSet) -> Result<Seen, Unready> {
    let mut seen = Seen::Answered;
    for byte in b'a'..b'z' {
        seen = seen.max(added_at_last(alloc, set, byte)?);
        if !seen.is_answered() {
            return Ok(seen);
        }
    }
    let are_there = (b'a'..b'z').all(|byte| set.contains(&[byte]));
    Ok(seen.max(Seen::at_once(Answer::given(are_there && !set.contains(b"z")))))
}

fn adds_to_a_set(alloc: Global) -> Result<Seen, Unready> {
    lent_mut(TextSet::new(alloc), |set| adds_texts(alloc, set))
}

fn insert(alloc: Global, set: &mut TextSet, text: &[u8]) -> Result<(), Unready> {
    set.insert(Vec::from_slice(alloc, text)?)?;
    Ok(())
}

fn insert_two(alloc: Global, set: &mut TextSet) -> Result<(), Unready> {
    insert(alloc, set, b"b")?;
    insert(alloc, set, b"a")?;
    insert(alloc, set, b"b")
}

fn set_of_two(alloc: Global) -> Result<TextSet, Unready> {
    let mut set = TextSet::new(alloc);
    match insert_two(alloc, &mut set) {
        Ok(()) => Ok(set),
        Err(unready) => {
            drop(set);
            Err(unready)
        }
    }
}

fn lists_a_set(alloc: Global) -> Result<Answer, Unready> {
    let set = set_of_two(alloc)?;
    match set.into_seq(alloc) {
        Ok(texts) => Ok(judged(texts, |texts| {
            are_texts(texts.as_slice(), &[b"a", b"b"])
        })),
        Err(_) => Ok(Answer::Refused),
    }
}

fn pushed(texts: &mut FirstPlaces) -> Answer {
    match texts.push(b"b") {
        Ok(()) => Answer::Right,
        Err(_) => Answer::Refused,
    }
}

fn push_texts<'a>(texts: &mut FirstPlaces<'a>, added: &[&'a [u8]]) -> Result<(), AllocError> {
    for text in added {
        texts.push(text)?;
    }
    Ok(())
}

/// These texts, for their first places.
fn first_places<'a>(alloc: Global, added: &[&'a [u8]]) -> Result<FirstPlaces<'a>, AllocError> {
    let mut texts = FirstPlaces::new(alloc);
    match push_texts(&mut texts, added) {
        Ok(()) => Ok(texts),
        Err(error) => {
            drop(texts);
            Err(error)
        }
    }
}

/// Whether the texts have these first places.
fn are_found(alloc: Global, texts: FirstPlaces, wanted: &[usize]) -> Result<bool, AllocError> {
    let places = texts.find(alloc)?;
    let are_right = places.as_slice() == wanted;
    drop(places);
    Ok(are_right)
}

/// Four texts and one more, which is refused or not, have these first places.
fn adds_to_first_places(alloc: Global) -> Result<Seen, Unready> {
    let mut texts = first_places(alloc, &[b"a", b"b", b"a", b"c"])?;
    let seen = twice!(pushed(&mut texts));
    let are_right = are_found(alloc, texts, &[0, 1, 0, 3, 1])?;
    if seen.is_answered() && !are_right {
        return Ok(Seen::Wrong);
    }
    Ok(seen)
}

fn finds_first_places(alloc: Global) -> Result<Answer, Unready> {
    let texts = first_places(alloc, &[b"a", b"b", b"a"])?;
    Ok(match are_found(alloc, texts, &[0, 1, 0]) {
        Ok(are_right) => Answer::given(are_right),
        Err(_) => Answer::Refused,
    })
}

fn tell_of_addresses<R: Print + AllocGlobal>(teller: &mut Teller<'_, R>) {
    tell_of_call(teller, "parse_address", reads_an_address);
    tell_of_call(teller, "parse_address, quoted", reads_a_quoted_address);
    tell_of_call(teller, "Address::new", makes_an_address);
    tell_of_case(teller, "Address::copy", copies_an_address);
    tell_of_call(teller, "parse_path", reads_a_path);
    tell_of_call(teller, "parse_path, null", reads_the_null_path);
}

fn tell_of_names<R: Print + AllocGlobal>(teller: &mut Teller<'_, R>) {
    tell_of_call(teller, "parse_name", reads_a_name);
    tell_of_call(teller, "quoted_content", reads_a_quoted_string);
    tell_of_case(teller, "write_path", writes_a_path);
    tell_of_case(teller, "write_local", writes_a_local_part);
    tell_of_call(teller, "logical_lines", joins_lines);
    tell_of_call(teller, "LogicalLines::new", begins_to_read_lines);
    tell_of_case(teller, "LogicalLines::next_line", joins_a_line);
}

fn tell_of_texts<R: Print + AllocGlobal>(teller: &mut Teller<'_, R>) {
    tell_of_call(teller, "Text::copy_of", copies_a_text);
    tell_of_call(teller, "Text::folded_copy_of", folds_a_text);
    tell_of_case(teller, "Text::append", appends_to_a_text);
}

fn tell_of_sets<R: Print + AllocGlobal>(teller: &mut Teller<'_, R>) {
    tell_of_call(teller, "TextSet::of", puts_texts_in_order);
    tell_of_case(teller, "TextSet::insert", adds_to_a_set);
    tell_of_call(teller, "TextSet::into_seq", lists_a_set);
    tell_of_case(teller, "FirstPlaces::push", adds_to_first_places);
    tell_of_call(teller, "FirstPlaces::find", finds_first_places);
}

pub(crate) fn tell<R: Print + AllocGlobal>(teller: &mut Teller<'_, R>) {
    tell_of_addresses(teller);
    tell_of_names(teller);
    tell_of_texts(teller);
    tell_of_sets(teller);
}
