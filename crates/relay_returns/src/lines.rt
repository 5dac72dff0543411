//! Lines of blocks.
ghost use Rattle.std.specs.Prelude.{◌≡◌, IfOk};
ghost use Rattle.relay_wire.specs.declared.finding.Finding.{Finding};
ghost use Rattle.relay_wire.specs.Findings.{finding_text_of};
ghost use Rattle.relay_returns.specs.Returns.{return_text_of};

use relay_text::{Address, path_len, write_path};
use std::alloc::{AllocError, Global};

/// The line of a block that says of a finding's line for which recipient it is: the finding's words, `for`, and the recipient's path.
/// `Err` where memory runs out.
pub fn return_line(
    alloc: Global,
    finding_line: &[u8],
    recipient: &Address,
) -> Result<Vec<u8>, AllocError>
    ensures { IfOk result (λ line. (finding : Finding) → finding_line.now ≡ finding_text_of finding → line.items ≡ return_text_of finding recipient.now) }
{
    let words = &finding_line[b"finding ".len().min(finding_line.len())..];
    let len = words.len().saturating_add(b" for ".len());
    let mut line = Vec::with_capacity(alloc, len.saturating_add(path_len(Some(recipient))))?;
    line.extend_from_slice(words)?;
    line.extend_from_slice(b" for ")?;
    write_path(Some(recipient), &mut line)?;
    Ok(line)
}
