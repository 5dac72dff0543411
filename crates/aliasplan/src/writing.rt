//! Writing a text whole.
ghost use Rattle.std.specs.Prelude.{◌≡◌, false, true, OnOk, OnErr, IfErr};
ghost use Rattle.std.specs.List.{concat};
ghost use Rattle.std.specs.Io.KnownBytes.{Appends};
ghost use Rattle.aliasplan.specs.Transfers.{Fronts};

use crate::device::{Failed, Sink};
use relay_text::Text;

/// Writes a text in as many writes as the writer wants. After a failure a front of the text is written.
pub fn write_text<S: Sink>(writer: &mut S, text: &[u8]) -> Result<(), Failed>
    requires { S.has_failed writer.old ≡ false }
    ensures ok { OnOk result (Appends (S.contents writer.old) (S.contents writer.new) text.now) }
    ensures works { OnOk result (S.has_failed writer.new ≡ false) }
    ensures front { OnErr result (Fronts (S.contents writer.old) (S.contents writer.new) text.now) }
    ensures failed { OnErr result (S.has_failed writer.new ≡ true) }
{
    let mut written = 0;
    while written < text.len() {
        let count = writer.write(&text[written..])?;
        written += count;
    }
    Ok(())
}

/// Writes texts one behind the other, as `write_text` writes one.
pub fn write_texts<S: Sink>(writer: &mut S, texts: &[Text]) -> Result<(), Failed>
    requires { S.has_failed writer.old ≡ false }
    ensures ok { OnOk result (Appends (S.contents writer.old) (S.contents writer.new) (concat texts.now)) }
    ensures works { OnOk result (S.has_failed writer.new ≡ false) }
    ensures front { OnErr result (Fronts (S.contents writer.old) (S.contents writer.new) (concat texts.now)) }
    ensures failed { OnErr result (S.has_failed writer.new ≡ true) }
{
    for text in texts {
        write_text(writer, text.as_bytes())?;
    }
    Ok(())
}
