//! Tables that are read anew between envelopes.
ghost use Rattle.std.specs.Prelude.{◌≡◌, ◌≢◌, ◌+◌, ◌++◌, ◌∷◌, [], ℕ, List, false, true, codes, decimal, Err, IfOk, IfErr, OnOk};
ghost use Rattle.relay_wire.specs.Findings.{after_spaces};
ghost use Rattle.relay_wire.specs.PlanText.{line};
ghost use Rattle.aliasplan_each.specs.BesideSteps.{IsWriteFault};
ghost use Rattle.aliasplan_each.specs.Changes.{taken_line, taken_text_by, taken_text_in, kept_line, kept_text_in, IsKept, IsChange};
ghost use Rattle.aliasplan_each.specs.ChangeSteps.{HasRead, WritesChange, FrontsChange};

use crate::beside::write_whole;
use crate::change_json::{put_kept_json, put_taken_json};
use crate::tables_source::TablesSource;
use aliasplan::{Crew, Form, Gate, Planner, RunFault, Sink, parse_tables};
use relay_wire::put_count;
use sha2::{Digest, Sha256};
use std::alloc::{AllocError, Global};
use std::thread::Threads;

/// Tables that were read anew, and the answer that says so.
#[derive(Drop)]
struct NewTables {
    planner: Planner,
    answer: Vec<u8>,
}

// Puts the line that says that the tables are taken whose text has this sum. `Err` where memory runs out, as in the calls below.
fn put_taken_line(sum: &[u8], out: &mut Vec<u8>) -> Result<(), AllocError>
    ensures { OnOk result (out.new.items ≡ out.old.items ++ line (taken_line sum.now)) }
{
    out.extend_from_slice(b"tables ok ")?;
    out.extend_from_slice(sum)?;
    out.push(b'\n')?;
    Ok(())
}

// Puts the answer that says so in this form.
fn put_taken(form: Form, sum: &[u8], out: &mut Vec<u8>) -> Result<(), AllocError>
    ensures { OnOk result (out.new.items ≡ out.old.items ++ taken_text_by form sum.now) }
{
    match form {
        Form::Plan | Form::Wire => put_taken_line(sum, out),
        Form::Json => put_taken_json(sum, out),
    }
}

// The answer that says that the tables of this text are taken.
fn taken_answer(alloc: Global, form: Form, text: &[u8]) -> Result<Vec<u8>, AllocError>
    ensures { IfOk result (λ answer. answer.items ≡ taken_text_in form text.now) }
{
    let sum = Sha256::digest(text);
    let hex = hex::encode(alloc, sum)?;
    let mut answer = Vec::new(alloc);
    put_taken(form, hex.as_bytes(), &mut answer)?;
    Ok(answer)
}

// Reads the tables of a source anew, with all workers.
fn read_tables<T: TablesSource, G: Gate, R: Threads + Sync>(
    crew: &Crew<G, R>,
    form: Form,
    source: &mut T,
) -> Result<NewTables, RunFault>
    ensures read { IfOk result (λ new. HasRead crew.now.limits form (T.coming source.old 0) new.planner new.answer.items) }
    ensures refused { IfErr result (IsKept crew.now.limits (T.coming source.old 0)) }
    ensures later { (k : ℕ) → T.coming source.new k ≡ T.coming source.old (k + 1) }
{
    let text = source.fetch(crew.alloc, crew.limits.bytes)?;
    let answer = taken_answer(crew.alloc, form, text.as_bytes())?;
    let tables = parse_tables(crew.alloc, text.as_bytes())?;
    drop(text);
    let planner = Planner::by_crew(crew, tables)?;
    Ok(NewTables { planner, answer })
}

// Puts the number of a line and what is wrong with it at the end.
fn put_bad_line(number: usize, words: &[u8], out: &mut Vec<u8>) -> Result<(), AllocError>
    ensures { OnOk result (out.new.items ≡ out.old.items ++ (codes "tables refused line" ++ after_spaces (decimal number ∷ words.now ∷ []))) }
{
    out.extend_from_slice(b"tables refused line")?;
    put_count(number, words, out)
}

// Puts the line at the end that says why the old tables are kept.
fn put_kept_line(fault: RunFault, out: &mut Vec<u8>) -> Result<(), AllocError>
    ensures { OnOk result (out.new.items ≡ out.old.items ++ line (kept_line fault)) }
{
    match fault {
        RunFault::BadJob(number) => put_bad_line(number, b"bad job line\n", out),
        RunFault::BadSetting(number) => put_bad_line(number, b"bad setting\n", out),
        RunFault::BadEnvelope(number) => put_bad_line(number, b"bad envelope\n", out),
        RunFault::Read => out.extend_from_slice(b"tables refused cannot read\n"),
        RunFault::TooLong => out.extend_from_slice(b"tables refused too long\n"),
        RunFault::TooManyNames => out.extend_from_slice(b"tables refused too many names\n"),
        RunFault::TooManyOwners => out.extend_from_slice(b"tables refused too many owners\n"),
        RunFault::TooManyPairs => out.extend_from_slice(b"tables refused too many pairs\n"),
        RunFault::Write => out.extend_from_slice(b"tables refused cannot write\n"),
        RunFault::Memory => out.extend_from_slice(b"tables refused out of memory\n"),
    }
}

// Puts the answer at the end that says why the old tables are kept.
fn put_kept(form: Form, fault: RunFault, out: &mut Vec<u8>) -> Result<(), AllocError>
    ensures { OnOk result (out.new.items ≡ out.old.items ++ kept_text_in form fault) }
{
    match form {
        Form::Plan | Form::Wire => put_kept_line(fault, out),
        Form::Json => put_kept_json(fault, out),
    }
}

// Takes the tables that a source gives, where they are good, in place of those that a planner has; the answer says whether.
fn take_tables<T: TablesSource, G: Gate, R: Threads + Sync>(
    crew: &Crew<G, R>,
    form: Form,
    planner: &mut Planner,
    source: &mut T,
) -> Result<Vec<u8>, AllocError>
    ensures changed { IfOk result (λ answer. IsChange crew.now.limits form (T.coming source.old 0) planner.old answer.items planner.new) }
    ensures later { (k : ℕ) → T.coming source.new k ≡ T.coming source.old (k + 1) }
{
    match read_tables(crew, form, source) {
        Ok(
            NewTables {
                planner: new,
                answer,
            },
        ) => {
            *planner = new;
            Ok(answer)
        }
        Err(fault) => {
            let mut answer = Vec::new(crew.alloc);
            put_kept(form, fault, &mut answer)?;
            Ok(answer)
        }
    }
}

/// Answers `%tables`: has the tables read anew, and plans by them from here on where they are good, and by the old ones where they aren't.
pub(crate) fn change_tables<T: TablesSource, S: Sink, G: Gate, R: Threads + Sync>(
    crew: &Crew<G, R>,
    form: Form,
    planner: &mut Planner,
    source: &mut T,
    writer: &mut S,
) -> Result<(), RunFault>
    requires { S.has_failed writer.old ≡ false }
    ensures written { OnOk result (WritesChange crew.now.limits form (T.coming source.old 0) planner.old planner.new (S.contents writer.old) (S.contents writer.new)) }
    ensures front { IfErr result (λ fault. FrontsChange crew.now.limits form (T.coming source.old 0) planner.old (S.contents writer.old) (S.contents writer.new)) }
    ensures only { IfErr result IsWriteFault }
    ensures write { (result ≡ Err RunFault.Write → S.has_failed writer.new ≡ true) × (result ≢ Err RunFault.Write → S.has_failed writer.new ≡ false) }
    ensures later { (k : ℕ) → T.coming source.new k ≡ T.coming source.old (k + 1) }
{
    let answer = take_tables(crew, form, planner, source)?;
    write_whole(writer, &answer)
}
