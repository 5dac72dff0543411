//! The values of the settings.
use crate::defaults::{names_or_own, via_or_mailbox};
use crate::domains::read_domains;
use crate::fault::RunFault;
use crate::place::Place;
use crate::setting::Setting;
use crate::settings::Settings;
use crate::value::{read_choice, read_delimiter, read_host, read_limit, read_seed};
use relay_routes::{Transport, Via};
use relay_text::{Seq, Text, is_ignored};
use std::alloc::{AllocError, Global};

/// What lines set: the value of each key (postconf(5) of Postfix) that one of them names.
#[derive(Default, Drop)]
pub struct SettingValues {
    hostname: Option<Text>,
    origin: Option<Text>,
    destinations: Option<Seq<Text>>,
    delimiter: Option<Option<u8>>,
    /// How many recipients a transaction takes, of any transport.
    limit: Option<u32>,
    smtp_limit: Option<u32>,
    relay_limit: Option<u32>,
    lmtp_limit: Option<u32>,
    default_transport: Option<Transport>,
    mailbox_transport: Option<Via>,
    seed: Option<u64>,
    expand: Option<bool>,
}

ghost use Rattle.std.specs.Prelude.{◌≡◌, ◌⊎◌, true, false, not, ◌&&◌, ℕ, List, Option, None, is_some, option_map, IfOk, IfErr, OnOk};
ghost use Rattle.relay_job.specs.Places.{content_at};
ghost use Rattle.relay_job.specs.Reasons.{is_limit_key};
ghost use Rattle.relay_job.specs.Settings.{is_good_setting, setting_of};
ghost use Rattle.relay_job.specs.SettingValues.{setting_in, settings_with, takes_memory, values_by, AreRead, HasSet, HasSetBy, AreValuesOf};
ghost use Rattle.relay_job.specs.JobParts.{lines_of, first_bad_setting, Stops};

/// Puts a value where none is, and answers whether it did: not where there is no value to put.
fn put<T: Drop>(place: &mut Option<T>, value: Option<T>) -> bool
    ensures good { result ≡ (is_some value && not (is_some place.old)) }
    ensures put { result ≡ true → place.new ≡ value }
{
    let good = value.is_some() && place.is_none();
    if good {
        *place = value;
    }
    good
}

impl SettingValues {
    /// Sets a key, and answers whether it did: not an unknown or a repeated key, nor a bad value.
    fn set(&mut self, alloc: Global, setting: Setting<'_>) -> Result<bool, AllocError>
        ensures { IfOk result (λ good. (at : List ℕ → Option (List ℕ)) → AreRead at self.old → HasSet at (setting_in setting.entry) good self.new) }
    {
        let Setting { key, value } = setting;
        // No `match`: one of texts is proved byte by byte, with a goal for each byte that may differ.
        if key == b"myhostname".as_slice() {
            Ok(put(&mut self.hostname, read_host(alloc, value)?))
        } else if key == b"myorigin".as_slice() {
            Ok(put(&mut self.origin, read_host(alloc, value)?))
        } else if key == b"mydestination".as_slice() {
            Ok(put(&mut self.destinations, read_domains(alloc, value)?))
        } else if key == b"mailbox_transport".as_slice() {
            Ok(put(&mut self.mailbox_transport, Via::parse(alloc, value)?))
        } else {
            Ok(self.set_limit(setting))
        }
    }

    /// The same of a key whose value takes no memory.
    fn set_limit(&mut self, setting: Setting<'_>) -> bool
        requires { takes_memory setting.key.now ≡ false }
        ensures { (at : List ℕ → Option (List ℕ)) → AreRead at self.old → HasSet at (setting_in setting.entry) result self.new }
    {
        let Setting { key, value } = setting;
        if key == b"default_destination_recipient_limit".as_slice() {
            put(&mut self.limit, read_limit(value))
        } else if key == b"smtp_destination_recipient_limit".as_slice() {
            put(&mut self.smtp_limit, read_limit(value))
        } else if key == b"relay_destination_recipient_limit".as_slice() {
            put(&mut self.relay_limit, read_limit(value))
        } else if key == b"lmtp_destination_recipient_limit".as_slice() {
            put(&mut self.lmtp_limit, read_limit(value))
        } else {
            self.set_choice(setting)
        }
    }

    /// The same of a key that is not a limit either.
    fn set_choice(&mut self, setting: Setting<'_>) -> bool
        requires no_text { takes_memory setting.key.now ≡ false }
        requires no_limit { is_limit_key setting.key.now ≡ false }
        ensures { (at : List ℕ → Option (List ℕ)) → AreRead at self.old → HasSet at (setting_in setting.entry) result self.new }
    {
        let Setting { key, value } = setting;
        if key == b"recipient_delimiter".as_slice() {
            put(&mut self.delimiter, read_delimiter(value))
        } else if key == b"default_transport".as_slice() {
            put(&mut self.default_transport, Transport::named(value))
        } else if key == b"seed".as_slice() {
            put(&mut self.seed, read_seed(value))
        } else if key == b"expand_owner_alias".as_slice() {
            put(&mut self.expand, read_choice(value))
        } else {
            false
        }
    }

    /// Whether a setting has a known key and a good value.
    pub(crate) fn takes(alloc: Global, setting: Setting<'_>) -> Result<bool, AllocError>
        ensures { IfOk result (λ good. good ≡ is_good_setting (setting_in setting.entry)) }
    {
        let mut values = SettingValues::default();
        let good = values.set(alloc, setting)?;
        Ok(good)
    }

    /// The values of the settings section behind a place. BadSetting has the first line that isn't ignored and has no `=`, an
    /// unknown or repeated key, or a bad value.
    pub(crate) fn read(alloc: Global, section: Place<'_>) -> Result<SettingValues, RunFault>
        ensures ok { IfOk result (AreValuesOf (lines_of (content_at section.entry))) }
        ensures err { IfErr result (λ fault. Stops (option_map RunFault.BadSetting (first_bad_setting (lines_of (content_at section.entry)))) fault) }
    {
        let mut values = SettingValues::default();
        values.take_all(alloc, section)?;
        Ok(values)
    }

    /// Sets what the lines behind a place say, where none was set before. BadSetting as from `read`.
    fn take_all(&mut self, alloc: Global, section: Place<'_>) -> Result<(), RunFault>
        requires { self.old ≡ values_by (λ name. None) }
        ensures ok { OnOk result (AreValuesOf (lines_of (content_at section.entry)) self.new) }
        ensures err { IfErr result (λ fault. Stops (option_map RunFault.BadSetting (first_bad_setting (lines_of (content_at section.entry)))) fault) }
    {
        let mut place = section;
        while let Some((line, after)) = place.split_content() {
            place = after;
            let text = line.content_text();
            if is_ignored(text) {
                continue;
            }
            self.take(alloc, line.number, text)?;
        }
        Ok(())
    }

    /// Sets what the line of a number says, which isn't ignored. BadSetting has the number.
    fn take(&mut self, alloc: Global, number: usize, text: &[u8]) -> Result<(), RunFault>
        ensures ok { OnOk result (HasSetBy self.old text.now true self.new) }
        ensures err { IfErr result (λ fault. (fault ≡ RunFault.Memory) ⊎ ((fault ≡ RunFault.BadSetting number) × ((setting_of text.now ≡ None) ⊎ HasSetBy self.old text.now false self.new))) }
    {
        let Some(setting) = Setting::of(text) else {
            return Err(RunFault::BadSetting(number));
        };
        if !self.set(alloc, setting)? {
            return Err(RunFault::BadSetting(number));
        }
        Ok(())
    }

    /// The settings, each at its value or its default.
    pub fn settings(self, alloc: Global) -> Result<Settings, AllocError>
        ensures { IfOk result (λ settings. settings ≡ settings_with self) }
    {
        let (hostname, origin, destinations) = names_or_own(
            alloc,
            self.hostname,
            self.origin,
            self.destinations,
        )?;
        let mailbox_transport = via_or_mailbox(alloc, self.mailbox_transport)?;
        let limit = self.limit.unwrap_or(50);
        Ok(Settings {
            hostname,
            origin,
            destinations,
            delimiter: self.delimiter.unwrap_or(None),
            smtp_limit: self.smtp_limit.unwrap_or(limit),
            relay_limit: self.relay_limit.unwrap_or(limit),
            lmtp_limit: self.lmtp_limit.unwrap_or(limit),
            default_transport: self.default_transport.unwrap_or(Transport::Smtp),
            mailbox_transport,
            seed: self.seed.unwrap_or(0),
            expand: self.expand.unwrap_or(false),
        })
    }
}
