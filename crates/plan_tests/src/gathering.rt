//! Jobs gathered from files, by example.
ghost use Rattle.std.specs.Prelude.{◌≤◌};
ghost use Rattle.relay_gather.specs.Source.{unknown};

use crate::devices::Paper;
use crate::limits::LIMITS;
use aliasplan::{Paths, RunFault, Source, SourceFault, gather};
use relay_text::{Seq, Text};
use std::alloc::{AllocError, Global};
use std::process::Abort;
use std::test::Fail;

/// A job's files by their paths, in the order in which they are gathered.
const FILES: [(&[u8], &[u8]); 7] = [
    (b"/settings", b"seed = 0\n"),
    (b"/aliases", b"l: :include:/l\n"),
    (b"/l", b":include:/m\n%z"),
    (b"/mailboxes", b"joe\n"),
    (b"/transport", b"* smtp\n"),
    (b"/mx", b"example.net A\n"),
    (b"/envelope", b"MAIL FROM:<>\n"),
];

const GATHERED: &[u8] = b"%settings\n\
      seed = 0\n\
      %aliases\n\
      l: :include:/l\n\
      %include /l\n\
      :include:/m\n\
      %%z\n\
      %mailboxes\n\
      joe\n\
      %transport\n\
      * smtp\n\
      %mx\n\
      example.net A\n\
      %envelope\n\
      MAIL FROM:<>\n";

/// The files, but that one path has a fault.
#[derive(Drop)]
struct FaultyFiles<'a> {
    path: &'a [u8],
    fault: SourceFault,
}

impl Source for FaultyFiles<'_> {
    ghost answer = { λ _ _. unknown };

    fn fetch(&mut self, alloc: Global, path: &[u8]) -> Result<Vec<u8>, SourceFault> {
        if path == self.path {
            return Err(self.fault);
        }
        for (name, file) in FILES {
            if path == name {
                return Vec::from_slice(alloc, file).map_err(|_| SourceFault::Memory);
            }
        }
        Err(SourceFault::Absent)
    }
}

fn text_of(alloc: Global, path: &[u8]) -> Result<Option<Text>, AllocError> {
    Ok(Some(Text::of(Vec::from_slice(alloc, path)?)))
}

/// One path.
fn listed(alloc: Global, path: &[u8]) -> Result<Seq<Text>, AllocError> {
    let mut paths = Vec::new(alloc);
    paths.push(Text::of(Vec::from_slice(alloc, path)?))?;
    Ok(Seq::of(paths))
}

/// What gathering at most so many bytes of the files answers, where this path has this fault and the writer so much room, and what it wrote.
fn gathered(
    alloc: Global,
    path: &[u8],
    fault: SourceFault,
    room: usize,
    max: usize,
) -> Result<(Result<(), RunFault>, Vec<u8>), Fail>
    requires { max ≤ 67108864 }
{
    let paths = Paths {
        settings: text_of(alloc, b"/settings")?,
        aliases: listed(alloc, b"/aliases")?,
        mailboxes: text_of(alloc, b"/mailboxes")?,
        transport: listed(alloc, b"/transport")?,
        mx: text_of(alloc, b"/mx")?,
        envelope: text_of(alloc, b"/envelope")?,
    };
    let mut source = FaultyFiles { path, fault };
    let mut writer = Paper {
        text: Vec::new(alloc),
        room,
        failed: false,
    };
    let answer = gather(alloc, &mut source, &paths, &mut writer, max);
    let Paper { text, .. } = writer;
    Ok((answer, text))
}

/// The text is written where it may have so many bytes.
fn expect_text(rt: &(impl Abort + AllocGlobal), max: usize) -> Result<(), Fail>
    requires { max ≤ 67108864 }
{
    let (answer, text) = gathered(rt.alloc(), b"", SourceFault::Failed, usize::MAX, max)?;
    assert_eq!(rt; answer, Ok(()));
    assert_eq!(rt; text.as_slice(), GATHERED);
    Ok(())
}

#[test]
fn writes_the_text_that_is_gathered(rt: HostRuntime) -> Result<(), Fail> {
    expect_text(&rt, LIMITS.bytes)?;
    expect_text(&rt, GATHERED.len())
}

#[test]
fn writes_nothing_where_the_text_is_longer(rt: HostRuntime) -> Result<(), Fail> {
    let max = GATHERED.len() - 1;
    let (answer, text) = gathered(rt.alloc(), b"", SourceFault::Failed, usize::MAX, max)?;
    assert_eq!(rt; answer, Err(RunFault::TooLong));
    assert!(rt; text.is_empty());
    Ok(())
}

/// Nothing is written where this path fails.
fn expect_nothing(rt: &(impl Abort + AllocGlobal), path: &[u8]) -> Result<(), Fail> {
    for (fault, told) in [
        (SourceFault::Failed, RunFault::Read),
        (SourceFault::Memory, RunFault::Memory),
    ] {
        let (answer, text) = gathered(rt.alloc(), path, fault, usize::MAX, LIMITS.bytes)?;
        assert_eq!(rt; answer, Err(told), "at {path:?}");
        assert!(rt; text.is_empty());
    }
    Ok(())
}

#[test]
fn writes_nothing_where_a_file_fails(rt: HostRuntime) -> Result<(), Fail> {
    for (path, _) in FILES {
        expect_nothing(&rt, path)?;
    }
    // What an include file includes.
    expect_nothing(&rt, b"/m")
}

#[test]
fn writes_a_front_where_the_writer_fails(rt: HostRuntime) -> Result<(), Fail> {
    let (answer, text) = gathered(rt.alloc(), b"", SourceFault::Failed, 20, LIMITS.bytes)?;
    assert_eq!(rt; answer, Err(RunFault::Write));
    assert_eq!(rt; text.as_slice(), &GATHERED[..20]);
    Ok(())
}
