//! The words of the command line, from the first to the request that they make.
ghost use Rattle.aliasplan_words.specs.Requests.{IsRequest};

use crate::asking::{gather_request, job_request};
use crate::commands::command;
use crate::refusing::{request_of_error, request_without_words};
use crate::request::Request;
use clap::ArgMatches;
use relay_chains::TextKey;
use relay_job::RunFault;
use std::random::RandomSource;
use std::rt::Env;
use std::{env, io};

// A key for the hashes of texts, from the system's source of random bytes (getentropy(3)).
fn drawn_key<R: RandomSource>(rt: &R) -> io::Result<TextKey> {
    let mut bytes = [0; 16];
    rt.fill_bytes(&mut bytes)?;
    Ok(TextKey::from_le_bytes(bytes))
}

// What words that are read ask for.
fn asked_by<R: Eprint + AllocGlobal>(rt: &R, matches: &ArgMatches<'_>, key: TextKey) -> Request
    ensures { IsRequest result }
{
    match matches.subcommand() {
        Some(("gather", words)) => gather_request(rt.alloc(), words),
        Some((name, words)) => job_request(rt, name, words, key),
        None => Request::Unknown,
    }
}

/// What the words of the command line ask for. Help goes to standard output, and to standard error what makes words `Unknown`; a `Fault` is
/// left to the caller to say: want of memory, or `Read` where the system gives no random bytes for the key of the options.
pub fn read_words<R: Env + RandomSource + Print + Eprint + AllocGlobal>(rt: &R) -> Request
    ensures { IsRequest result }
{
    let args = match env::args(rt) {
        Ok(args) => args,
        Err(error) => return request_without_words(rt, &error),
    };
    let Ok(words) = args.collect::<Vec<String>>(rt.alloc()) else {
        return Request::Fault(RunFault::Memory);
    };
    let Ok(command) = command(rt.alloc()) else {
        return Request::Fault(RunFault::Memory);
    };
    match command.try_get_matches_from(words.as_slice()) {
        Ok(matches) => match drawn_key(rt) {
            Ok(key) => asked_by(rt, &matches, key),
            Err(_) => Request::Fault(RunFault::Read),
        },
        Err(error) => request_of_error(rt, &error),
    }
}
