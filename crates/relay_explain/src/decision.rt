//! What decides where an address goes.
use crate::record::Record;
use crate::rule::Rule;
use relay_routes::Destination;
use relay_text::{Seq, Text};

/// What decides the route of an address, and its hosts.
#[derive(Drop)]
pub struct Decision {
    pub rule: Rule,
    /// The transport and the nexthop, where the rule gives some that there are.
    pub to: Option<Destination>,
    /// The name whose mail exchangers are looked up, where they are.
    pub lookup: Option<Text>,
    /// The records of that name, in the order of the table.
    pub records: Seq<Record>,
}

ghost use Rattle.std.specs.Prelude.{◌≡◌, ◌++◌, map, OnOk};
ghost use Rattle.relay_wire.specs.PlanText.{lines_of};
ghost use Rattle.relay_explain.specs.ExplanationText.{decision_text, via_lines, lookup_lines, record_line};

use relay_wire::put_word;
use std::alloc::AllocError;

// Writes the line of each record.
fn put_records(records: &[Record], out: &mut Vec<u8>) -> Result<(), AllocError>
    ensures { OnOk result (out.new.items ≡ out.old.items ++ lines_of (map record_line records.now)) }
{
    for record in records {
        record.put_line(out)?;
    }
    Ok(())
}

impl Decision {
    /// Writes the line of the transport and the nexthop, where there is one.
    fn put_to(&self, out: &mut Vec<u8>) -> Result<(), AllocError>
        ensures { OnOk result (out.new.items ≡ out.old.items ++ via_lines self.now.to) }
    {
        let Some(to) = &self.to else {
            return Ok(());
        };
        out.extend_from_slice(b"via")?;
        put_word(to.transport.name(), out)?;
        put_word(to.nexthop.as_bytes(), out)?;
        out.push(b'\n')?;
        Ok(())
    }

    /// Writes the line of the name that is looked up, where there is one.
    fn put_lookup(&self, out: &mut Vec<u8>) -> Result<(), AllocError>
        ensures { OnOk result (out.new.items ≡ out.old.items ++ lookup_lines self.now.lookup) }
    {
        let Some(name) = &self.lookup else {
            return Ok(());
        };
        out.extend_from_slice(b"lookup mx")?;
        put_word(name.as_bytes(), out)?;
        out.push(b'\n')?;
        Ok(())
    }

    pub(crate) fn put_lines(&self, out: &mut Vec<u8>) -> Result<(), AllocError>
        ensures { OnOk result (out.new.items ≡ out.old.items ++ decision_text self.now) }
    {
        self.rule.put_line(out)?;
        self.put_to(out)?;
        self.put_lookup(out)?;
        put_records(self.records.as_slice(), out)
    }
}
