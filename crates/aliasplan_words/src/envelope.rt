//! The envelope that the words after --from and --to say.
ghost use Rattle.std.specs.Prelude.{◌≡◌, ◌++◌, map, IfOk, IfErr, OnOk};
ghost use Rattle.aliasplan_words.specs.Requests.{IsRequest};
ghost use Rattle.aliasplan_words.specs.Envelopes.{path_of_word, path_line, envelope_section};

use crate::asked::{asked_as, asked_by_each};
use crate::request::Request;
use clap::ArgMatches;
use relay_job::RunFault;
use relay_text::Text;
use std::alloc::{AllocError, Global};

/// Puts a path at the end, which a word may have in angle brackets or without.
fn put_path(word: &str, out: &mut Vec<u8>) -> Result<(), AllocError>
    ensures { OnOk result (out.new.items ≡ out.old.items ++ path_of_word word.now) }
{
    let path = word.as_bytes();
    if path.starts_with(b"<") {
        return out.extend_from_slice(path);
    }
    out.push(b'<')?;
    out.extend_from_slice(path)?;
    out.push(b'>')?;
    Ok(())
}

/// Puts the line of a command with the path of a word at the end.
fn put_line(command: &[u8], word: &str, out: &mut Vec<u8>) -> Result<(), AllocError>
    ensures { OnOk result (out.new.items ≡ out.old.items ++ path_line command.now word.now) }
{
    out.extend_from_slice(command)?;
    put_path(word, out)?;
    out.push(b'\n')?;
    Ok(())
}

/// The section of the envelope of a sender and recipients (RFC 5321 section 4.1.1).
fn envelope_section(alloc: Global, from: &str, to: &[&str]) -> Result<Text, AllocError>
    ensures { IfOk result (λ section. section ≡ envelope_section from.now (map (λ word. word.now) to.now)) }
{
    let mut out = Vec::new(alloc);
    put_line(b"MAIL FROM:", from, &mut out)?;
    for word in to {
        put_line(b"RCPT TO:", word, &mut out)?;
    }
    Ok(Text::of(out))
}

/// Says where a word is neither the null sender nor an address or a name, and what is asked for then.
fn refuse_sender<R: Eprint + AllocGlobal>(rt: &R, word: &str) -> Result<(), Request>
    ensures { IfErr result (λ request. IsRequest request) }
{
    if word.is_empty() || word == "<>" {
        return Ok(());
    }
    match asked_as(rt, word) {
        Ok(_) => Ok(()),
        Err(request) => Err(request),
    }
}

/// The section of the envelope that the words after --from and --to say, where some stand after --to, or the request of one that is no path.
/// Without --from the sender is the null sender.
pub(crate) fn envelope_of<R: Eprint + AllocGlobal>(
    rt: &R,
    words: &ArgMatches<'_>,
) -> Result<Option<Text>, Request>
    ensures { IfErr result (λ request. IsRequest request) }
{
    let Some(to) = words.get_strs("to") else {
        return Ok(None);
    };
    let from = words.get_str("from").unwrap_or_default();
    refuse_sender(rt, from)?;
    let _asked = asked_by_each(rt, to)?;
    match envelope_section(rt.alloc(), from, to) {
        Ok(section) => Ok(Some(section)),
        Err(_) => Err(Request::Fault(RunFault::Memory)),
    }
}
