//! What decides a route.
use relay_routes::{Transport, Via};
use relay_text::Text;

/// What decides the transport and the nexthop of an address (transport(5)).
#[derive(Drop)]
pub enum Rule {
    /// The setting `default_transport`: the transport table has no line for the address.
    DefaultTransport(Transport),
    /// The setting `mailbox_transport`, by which mailboxes go.
    MailboxTransport(Via),
    /// A line of the transport table: its number, its pattern and its result.
    Line(usize, Text, Text),
}

ghost use Rattle.std.specs.Prelude.{◌≡◌, ◌++◌, OnOk};
ghost use Rattle.relay_wire.specs.PlanText.{line};
ghost use Rattle.relay_explain.specs.ExplanationText.{rule_text, route_line, table_text, via_text};

use relay_wire::{put_number, put_word};
use std::alloc::AllocError;

// Writes a transport, and a nexthop where there is one, as a setting has them.
fn put_via(via: &Via, out: &mut Vec<u8>) -> Result<(), AllocError>
    ensures { OnOk result (out.new.items ≡ out.old.items ++ via_text via.now) }
{
    put_word(via.transport.name(), out)?;
    match &via.nexthop {
        Some(nexthop) => {
            out.push(b':')?;
            out.extend_from_slice(nexthop.as_bytes())
        }
        None => Ok(()),
    }
}

// Writes a line's number, pattern and result.
#[tactic(auto, unfolding(crate::specs::ExplanationText::table_text))]
fn put_table_line(
    number: usize,
    pattern: &[u8],
    outcome: &[u8],
    out: &mut Vec<u8>,
) -> Result<(), AllocError>
    ensures { OnOk result (out.new.items ≡ out.old.items ++ table_text number pattern.now outcome.now) }
{
    put_number(number, out)?;
    put_word(pattern, out)?;
    put_word(outcome, out)
}

impl Rule {
    fn put(&self, out: &mut Vec<u8>) -> Result<(), AllocError>
        ensures { OnOk result (out.new.items ≡ out.old.items ++ rule_text self.now) }
    {
        match self {
            Rule::DefaultTransport(transport) => {
                put_word(b"setting default_transport", out)?;
                put_word(transport.name(), out)
            }
            Rule::MailboxTransport(via) => {
                put_word(b"setting mailbox_transport", out)?;
                put_via(via, out)
            }
            Rule::Line(number, pattern, outcome) => {
                put_word(b"transport line", out)?;
                put_table_line(*number, pattern.as_bytes(), outcome.as_bytes(), out)
            }
        }
    }

    pub(crate) fn put_line(&self, out: &mut Vec<u8>) -> Result<(), AllocError>
        ensures { OnOk result (out.new.items ≡ out.old.items ++ line (route_line self.now)) }
    {
        out.extend_from_slice(b"route")?;
        self.put(out)?;
        out.push(b'\n')?;
        Ok(())
    }
}
