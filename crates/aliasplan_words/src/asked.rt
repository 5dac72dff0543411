//! The names and addresses that words spell.
ghost use Rattle.std.specs.Prelude.{◌≡◌, map, Ok, IfOk, IfErr};
ghost use Rattle.relay_explain.specs.AskedTexts.{asked_of};
ghost use Rattle.aliasplan_words.specs.Requests.{IsRequest};

use crate::request::Request;
use relay_explain::Asked;
use relay_job::RunFault;
use relay_text::{Seq, TextFault};

/// The name or the address that a word spells, or the request that one makes which spells none: it is a fault of the command line.
pub(crate) fn asked_as<R: Eprint + AllocGlobal>(rt: &R, word: &str) -> Result<Asked, Request>
    ensures asked { IfOk result (λ asked. asked_of word.now ≡ Ok asked) }
    ensures refused { IfErr result (λ request. IsRequest request) }
{
    match Asked::parse(rt.alloc(), word.as_bytes()) {
        Ok(asked) => Ok(asked),
        Err(TextFault::Memory) => Err(Request::Fault(RunFault::Memory)),
        Err(_) => {
            let _ = eprintln!(rt; "aliasplan: {word}: no address and no local name");
            Err(Request::Unknown)
        }
    }
}

/// Those that these words spell, in their order, or the request of the first word that spells none.
pub(crate) fn asked_by_each<R: Eprint + AllocGlobal>(
    rt: &R,
    words: &[&str],
) -> Result<Seq<Asked>, Request>
    ensures asked { IfOk result (λ asked. map (λ word. asked_of word.now) words.now ≡ map Ok asked) }
    ensures refused { IfErr result (λ request. IsRequest request) }
{
    let mut asked = Vec::new(rt.alloc());
    for word in words {
        let one = asked_as(rt, word)?;
        if asked.push(one).is_err() {
            return Err(Request::Fault(RunFault::Memory));
        }
    }
    Ok(Seq::of(asked))
}
