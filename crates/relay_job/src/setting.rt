//! Lines of the settings.
use bstr::ByteSlice;
use relay_text::trimmed;

/// What a line `key = value` sets, without the white space round key and value.
#[derive(Clone, Copy)]
pub struct Setting<'a> {
    pub key: &'a [u8],
    pub value: &'a [u8],
}

impl<'a> Setting<'a> {
    ghost use Rattle.std.specs.Prelude.{◌≡◌, position, option_map};
    ghost use Rattle.relay_job.specs.Settings.{is_equals, setting_of};
    ghost use Rattle.relay_job.specs.SettingValues.{setting_in};

    fn equals_place(line: &[u8]) -> Option<usize>
        ensures { result ≡ position is_equals line.now }
    {
        line.find_byte(b'=')
    }

    /// What a line sets; `None` where it has no `=`.
    pub(crate) fn of(line: &'a [u8]) -> Option<Setting<'a>>
        ensures { option_map setting_in result ≡ setting_of line.now }
    {
        let equals = Setting::equals_place(line)?;
        Some(Setting {
            key: trimmed(&line[..equals]),
            value: trimmed(&line[equals + 1..]),
        })
    }
}
