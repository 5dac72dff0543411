//! Why a line of a job is at fault.
ghost use Rattle.std.specs.Prelude.{◌≡◌, true, ℕ, List, Some, option_map, IfOk, IfErr};
ghost use Rattle.relay_text.specs.declared.lines.Line.{Line};
ghost use Rattle.relay_job.specs.JobText.{JobLine, text_of, breaks_job, job_fault, job_settings, envelope_part, envelope_lines, heading_number, bad_envelope};
ghost use Rattle.relay_job.specs.JobParts.{commands_of, lines_of, first_bad_command, first_bad_setting, Stops};
ghost use Rattle.relay_job.specs.SectionPlaces.{content_behind, line_behind, place_of, setting_lines_of};
ghost use Rattle.relay_job.specs.Settings.{breaks_settings, settings_of};
ghost use Rattle.relay_job.specs.Reasons.{is_limit_key, value_reason, BreaksJob, BreaksSettings, BreaksEnvelope};

use crate::envelope::Envelope;
use crate::fault::RunFault;
use crate::heading::Heading;
use crate::parsing::read_settings;
use crate::parts::Parts;
use crate::reason::Reason;
use crate::section::Section;
use crate::setting::Setting;
use crate::setting_values::SettingValues;
use std::alloc::{AllocError, Global};

/// The rule of jobs that a line breaks, where it breaks one.
pub fn job_line_reason(text: &[u8]) -> Reason
    ensures { (earlier : List JobLine) (l : JobLine) → text_of l ≡ text.now → breaks_job earlier l ≡ true → BreaksJob earlier l result }
{
    if !text.starts_with(b"%") || text.starts_with(b"%%") {
        return Reason::BeforeHeadings;
    }
    match Heading::of(text) {
        Some(_) => Reason::RepeatedHeading,
        None => Reason::UnknownHeading,
    }
}

fn is_limit_key(key: &[u8]) -> bool
    ensures { result ≡ is_limit_key key.now }
{
    key == b"default_destination_recipient_limit".as_slice()
        || key == b"smtp_destination_recipient_limit".as_slice()
        || key == b"relay_destination_recipient_limit".as_slice()
        || key == b"lmtp_destination_recipient_limit".as_slice()
}

/// What a bad value of a key is not; `None` where there is no such key.
fn value_reason(key: &[u8]) -> Option<Reason>
    ensures { result ≡ value_reason key.now }
{
    if key == b"myhostname".as_slice() || key == b"myorigin".as_slice() {
        Some(Reason::NotHost)
    } else if key == b"mydestination".as_slice() {
        Some(Reason::NotDomains)
    } else if key == b"recipient_delimiter".as_slice() {
        Some(Reason::NotDelimiter)
    } else if is_limit_key(key) {
        Some(Reason::NotLimit)
    } else if key == b"default_transport".as_slice() {
        Some(Reason::NotTransport)
    } else if key == b"mailbox_transport".as_slice() {
        Some(Reason::NotVia)
    } else if key == b"seed".as_slice() {
        Some(Reason::NotSeed)
    } else if key == b"expand_owner_alias".as_slice() {
        Some(Reason::NotChoice)
    } else {
        None
    }
}

/// The rule of settings that a line breaks, where it breaks one.
pub fn setting_reason(alloc: Global, text: &[u8]) -> Result<Reason, AllocError>
    ensures { IfOk result (λ reason. (earlier : List Line) (l : Line) → l.text ≡ text.now → breaks_settings earlier l ≡ true → BreaksSettings earlier l.text reason) }
{
    let Some(setting) = Setting::of(text) else {
        return Ok(Reason::NoEquals);
    };
    let Some(bad_value) = value_reason(setting.key) else {
        return Ok(Reason::UnknownKey);
    };
    if SettingValues::takes(alloc, setting)? {
        Ok(Reason::RepeatedKey)
    } else {
        Ok(bad_value)
    }
}

/// The rule of envelopes that a job's envelope breaks, where it breaks one. `Err` where the job has a fault before it, or memory runs
/// out.
pub fn envelope_reason(alloc: Global, bytes: &[u8]) -> Result<Reason, RunFault>
    ensures reason { IfOk result (λ reason. (number : ℕ) → bad_envelope (job_settings bytes.now).origin (envelope_part bytes.now) ≡ Some number → BreaksEnvelope (job_settings bytes.now).origin number (heading_number (envelope_part bytes.now)) (envelope_lines (envelope_part bytes.now)) reason) }
    ensures told { IfErr result (λ fault. (number : ℕ) → job_fault bytes.now ≡ Some (RunFault.BadEnvelope number) → fault ≡ RunFault.Memory) }
{
    let parts = Parts::find(alloc, bytes)?;
    reason_in_parts(alloc, &parts)
}

/// The same of a job's parts. BadSetting as from `parse_job`.
fn reason_in_parts(alloc: Global, parts: &Parts<'_>) -> Result<Reason, RunFault>
    ensures reason { let origin = (settings_of (setting_lines_of parts.now)).origin in let place = place_of parts.now.sections Section.Envelope in IfOk result (λ reason. (number : ℕ) → first_bad_command origin (line_behind place) (commands_of (lines_of (content_behind place))) ≡ Some number → BreaksEnvelope origin number (line_behind place) (commands_of (lines_of (content_behind place))) reason) }
    ensures err { IfErr result (Stops (option_map RunFault.BadSetting (first_bad_setting (setting_lines_of parts.now)))) }
{
    let settings = read_settings(alloc, parts)?;
    let section = parts.sections.section(Section::Envelope);
    Ok(Envelope::reason(alloc, section, settings.origin.as_bytes())?)
}
