//! A job gathered from files: two alias files, of which one leads to an include file, and an envelope.
ghost use Rattle.relay_gather.specs.Source.{unknown};

use crate::devices::Paper;
use aliasplan::{Paths, RunFault, Source, SourceFault, gather};
use growth_answers::{Answer, Seen, Teller, Unready, call, case, judged, lent, twice};
use relay_gather::gathered_text;
use relay_text::{Seq, Text};
use std::alloc::{AllocError, Global};

/// How many bytes a job may have.
const MOST: usize = 1000;

const GATHERED: &[u8] = b"%aliases\n\
    l: :include:/l\n\
    # joe\n\
    k: joe\n\
    %include /l\n\
    :include:/m\n\
    %%z\n\
    %envelope\n\
    MAIL FROM:<>\n";

/// The files.
#[derive(Drop)]
struct Files;

impl Source for Files {
    ghost answer = { λ _ _. unknown };

    fn fetch(&mut self, alloc: Global, path: &[u8]) -> Result<Vec<u8>, SourceFault> {
        let file: &[u8] = match path {
            b"/aliases" => b"l: :include:/l",
            b"/lists" => b" joe\nk: joe\n",
            b"/l" => b":include:/m\n%z",
            b"/envelope" => b"MAIL FROM:<>\n",
            _ => return Err(SourceFault::Absent),
        };
        match Vec::from_slice(alloc, file) {
            Ok(bytes) => Ok(bytes),
            Err(_) => Err(SourceFault::Memory),
        }
    }
}

fn text(alloc: Global, bytes: &[u8]) -> Result<Option<Text>, AllocError> {
    Ok(Some(Text::copy_of(alloc, bytes)?))
}

fn texts(alloc: Global, paths: &[&[u8]]) -> Result<Seq<Text>, AllocError> {
    let mut texts = Vec::new(alloc);
    for path in paths {
        texts.push(Text::copy_of(alloc, path)?)?;
    }
    Ok(Seq::of(texts))
}

fn paths(alloc: Global) -> Result<Paths, AllocError> {
    let envelope = text(alloc, b"/envelope")?;
    let transport = texts(alloc, &[])?;
    let aliases = texts(alloc, &[b"/aliases", b"/lists"])?;
    Ok(Paths {
        settings: None,
        aliases,
        mailboxes: None,
        transport,
        mx: None,
        envelope,
    })
}

fn text_is_gathered(alloc: Global, paths: &Paths) -> Answer {
    match gathered_text(alloc, &mut Files, paths, MOST) {
        Ok(text) => judged(text, |text| text.as_bytes() == GATHERED),
        Err(RunFault::Memory) => Answer::Refused,
        Err(_) => Answer::Wrong,
    }
}

fn gathers_a_text(alloc: Global) -> Result<Seen, Unready> {
    let paths = paths(alloc)?;
    lent(paths, |paths| Ok(twice!(text_is_gathered(alloc, paths))))
}

/// What gathering answers; where it's refused, nothing is written.
fn gathered(alloc: Global, paths: &Paths) -> Result<Answer, Unready> {
    let mut paper = Paper::new(alloc)?;
    match gather(alloc, &mut Files, paths, &mut paper, MOST) {
        Ok(()) => Ok(Answer::given(paper.text.as_slice() == GATHERED)),
        Err(RunFault::Memory) => Ok(Answer::refused(paper.text.is_empty())),
        Err(_) => Ok(Answer::Wrong),
    }
}

fn gathers(alloc: Global) -> Result<Answer, Unready> {
    let paths = paths(alloc)?;
    lent(paths, |paths| gathered(alloc, paths))
}

pub(crate) fn tell<R: Print + AllocGlobal>(teller: &mut Teller<'_, R>) {
    let alloc = teller.rt.alloc();
    case!(teller, "gathered_text", gathers_a_text(alloc));
    call!(teller, "gather", gathers(alloc));
}
