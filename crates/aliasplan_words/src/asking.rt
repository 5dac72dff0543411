//! What the words after each command ask for.
ghost use Rattle.std.specs.Prelude.{IfOk, IfErr};
ghost use Rattle.aliasplan_words.specs.Requests.{IsRequest};

use crate::asked::{asked_as, asked_by_each};
use crate::envelope::envelope_of;
use crate::expansion::Expansion;
use crate::named_job::NamedJob;
use crate::refusing::clash_of;
use crate::request::Request;
use crate::scope::Scope;
use crate::values::{
    detail_of, form_of, graph_of, job_path, names_and_file, names_files, output_of, path_of,
    paths_of, source_of, work_of,
};
use clap::ArgMatches;
use relay_chains::TextKey;
use relay_job::RunFault;
use relay_planning::Form;
use std::alloc::{AllocError, Global};

/// The job that words name, where this operand names its file, or the request of those that say no envelope.
fn named_job<R: Eprint + AllocGlobal>(
    rt: &R,
    words: &ArgMatches<'_>,
    file: Option<&str>,
) -> Result<NamedJob, Request>
    ensures { IfErr result (λ request. IsRequest request) }
{
    let envelope = envelope_of(rt, words)?;
    match source_of(rt.alloc(), words, file) {
        Ok(source) => Ok(NamedJob { source, envelope }),
        Err(_) => Err(Request::Fault(RunFault::Memory)),
    }
}

/// What the words after `plan --each` ask for.
fn each_of(alloc: Global, words: &ArgMatches<'_>, key: TextKey) -> Result<Request, AllocError>
    ensures { IfOk result (λ request. IsRequest request) }
{
    let path = job_path(alloc, words.get_str("file"))?;
    let tables = path_of(alloc, words, "tables")?;
    let work = work_of(words, form_of(words), key);
    let output = output_of(words);
    Ok(Request::Each(work, output, tables, path, detail_of(words)))
}

/// What the words after `plan` ask for of one job.
fn plan_of(words: &ArgMatches<'_>, key: TextKey, job: NamedJob) -> Request
    ensures { IsRequest result }
{
    let work = work_of(words, form_of(words), key);
    Request::Plan(work, output_of(words), job, detail_of(words))
}

/// What the words after `domains` ask for. There is one form.
fn domains_of(words: &ArgMatches<'_>, key: TextKey, job: NamedJob) -> Request
    ensures { IsRequest result }
{
    let work = work_of(words, Form::Plan, key);
    Request::Domains(work, job, detail_of(words))
}

/// What the words after `check` ask for. There is one form.
fn check_of(words: &ArgMatches<'_>, key: TextKey, job: NamedJob) -> Request
    ensures { IsRequest result }
{
    let work = work_of(words, Form::Plan, key);
    let scope = if words.get_flag("all") {
        Scope::Aliases
    } else {
        Scope::Texts
    };
    Request::Check(work, scope, job, detail_of(words))
}

/// What the words after `plan`, `domains` or `check` ask for of one job.
fn request_of<R: Eprint + AllocGlobal>(
    rt: &R,
    name: &str,
    words: &ArgMatches<'_>,
    key: TextKey,
) -> Result<Request, Request>
    ensures ok { IfOk result (λ request. IsRequest request) }
    ensures refused { IfErr result (λ request. IsRequest request) }
{
    let job = named_job(rt, words, words.get_str("file"))?;
    Ok(match name {
        "domains" => domains_of(words, key, job),
        "check" => check_of(words, key, job),
        _ => plan_of(words, key, job),
    })
}

/// What the words after `explain` ask for. There is one form. A text that is no name and no address is a fault of the command line.
fn explain_of<R: Eprint + AllocGlobal>(
    rt: &R,
    words: &ArgMatches<'_>,
    key: TextKey,
) -> Result<Request, Request>
    ensures ok { IfOk result (λ request. IsRequest request) }
    ensures refused { IfErr result (λ request. IsRequest request) }
{
    let asked = asked_as(rt, words.get_str("address").unwrap_or_default())?;
    let job = named_job(rt, words, words.get_str("file"))?;
    let work = work_of(words, Form::Plan, key);
    Ok(Request::Explain(work, asked, job, detail_of(words)))
}

/// What the words after `expand` ask for. There is one form. One that is no name and no address is a fault of the command line.
fn expand_of<R: Eprint + AllocGlobal>(
    rt: &R,
    words: &ArgMatches<'_>,
    key: TextKey,
) -> Result<Request, Request>
    ensures ok { IfOk result (λ request. IsRequest request) }
    ensures refused { IfErr result (λ request. IsRequest request) }
{
    let operands = words.get_strs("addresses").unwrap_or(&[]);
    let (names, file) = names_and_file(operands, names_files(words));
    let asked = asked_by_each(rt, names)?;
    let job = named_job(rt, words, file)?;
    let expansion = Expansion {
        asked,
        with_senders: words.get_flag("senders"),
        graph: graph_of(words),
    };
    let work = work_of(words, Form::Plan, key);
    Ok(Request::Expand(work, expansion, job, detail_of(words)))
}

/// What the words after a command ask for that reads a job, where they can stand side by side.
pub(crate) fn job_request<R: Eprint + AllocGlobal>(
    rt: &R,
    name: &str,
    words: &ArgMatches<'_>,
    key: TextKey,
) -> Request
    ensures { IsRequest result }
{
    if let Some(clash) = clash_of(words) {
        let _ = eprintln!(rt; "aliasplan: {clash}");
        return Request::Unknown;
    }
    if words.get_flag("each") {
        let each = each_of(rt.alloc(), words, key);
        return each.unwrap_or(Request::Fault(RunFault::Memory));
    }
    let answer = match name {
        "explain" => explain_of(rt, words, key),
        "expand" => expand_of(rt, words, key),
        _ => request_of(rt, name, words, key),
    };
    match answer {
        Ok(request) => request,
        Err(request) => request,
    }
}

/// What the words after `gather` ask for.
pub(crate) fn gather_request(alloc: Global, gather: &ArgMatches<'_>) -> Request
    ensures { IsRequest result }
{
    match paths_of(alloc, gather) {
        Ok(paths) => Request::Gather(paths, detail_of(gather)),
        Err(_) => Request::Fault(RunFault::Memory),
    }
}
