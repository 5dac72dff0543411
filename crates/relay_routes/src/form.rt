//! The nexthops of each transport.
ghost use Rattle.std.specs.Prelude.{◌≡◌, ◌++◌, [], ◌∷◌, option_map, IfOk};
ghost use Rattle.std.specs.List.{list_all};
ghost use Rattle.std.specs.Char.{is_ascii_graphic};
ghost use Rattle.relay_text.specs.Addresses.{is_run_of};
ghost use Rattle.relay_text.specs.Bytes.{folded};
ghost use Rattle.relay_routes.specs.Nexthops.{nexthop_of, unix_form};
ghost use Rattle.relay_routes.specs.Forms.{at_path, nexthop_from};

use crate::copies::joined;
use crate::host_form::{HostForm, after_word, host_form, inet_form};
use crate::transport::Transport;
use relay_text::Text;
use std::alloc::{AllocError, Global};

/// A nexthop, read in place.
#[derive(Drop)]
pub(crate) enum Form<'a> {
    /// A host.
    Host(HostForm<'a>),
    /// A socket of this path, without `unix:`.
    Unix(&'a [u8]),
}

impl<'a> Form<'a> {
    /// The nexthop as the plan writes it.
    pub(crate) fn written(&self, alloc: Global) -> Result<Text, AllocError>
        ensures { IfOk result (λ text. text ≡ (nexthop_from self.now).text) }
    {
        match self {
            Form::Host(form) => Text::folded_copy_of(alloc, form.text),
            Form::Unix(path) => Ok(Text::of(joined(alloc, b"unix:", path)?)),
        }
    }
}

/// The nexthop that a text names to a transport, `None` where it's of none of the transport's forms.
pub(crate) fn form_of(transport: Transport, text: &[u8]) -> Option<Form<'_>>
    ensures { option_map nexthop_from result ≡ nexthop_of transport text.now }
{
    match transport {
        Transport::Smtp | Transport::Relay => Some(Form::Host(host_form(text)?)),
        Transport::Lmtp => lmtp_form(text),
    }
}

/// `unix:path`, `inet:` and a host, or a host, whose mail exchangers aren't looked up (lmtp(8), "LMTP DESTINATION SYNTAX").
fn lmtp_form(text: &[u8]) -> Option<Form<'_>>
    ensures { option_map nexthop_from result ≡ nexthop_of Transport.Lmtp text.now }
{
    if let Some(path) = unix_form(text) {
        return Some(Form::Unix(path));
    }
    let form = match inet_form(text) {
        Some(form) => form,
        None => host_form(text)?,
    };
    Some(Form::Host(HostForm {
        text: form.text,
        host: form.host,
        port: form.port,
        looks_up: false,
    }))
}

/// The path of `unix:path`: a run of at least one byte that prints.
#[tactic(auto, using(crate::proofs::Readings::is_run_of_some))]
fn unix_form(text: &[u8]) -> Option<&[u8]>
    ensures { option_map (λ path. at_path path.now) result ≡ unix_form text.now }
{
    let path = after_word(b"unix:", text)?;
    if !path.is_empty() && all_graphic(path) {
        Some(path)
    } else {
        None
    }
}

/// Whether every byte prints.
fn all_graphic(text: &[u8]) -> bool
    ensures { result ≡ list_all is_ascii_graphic text.now }
{
    for byte in text {
        if !byte.is_ascii_graphic() {
            return false;
        }
    }
    true
}
