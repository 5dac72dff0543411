//! How long the parts of a text are, reckoned before they are written. A length that is larger than a `usize` counts is `usize::MAX`.
ghost use Rattle.std.specs.Prelude.{◌≡◌, length};
ghost use Rattle.relay_wire.specs.Lengths.{saturated};
ghost use Rattle.relay_returns.specs.Returns.{block_text, blocks_text, tail_text};

use crate::block::Return;
use itoa::Buffer;
use relay_text::{Text, path_len};
use relay_wire::texts_len;

// The length of a block.
fn block_len(number: usize, block: &Return) -> usize
    ensures { result ≡ saturated (length (block_text number block.now)) }
{
    b"return \nfrom \n"
        .len()
        .saturating_add(Buffer::new().format(number).len())
        .saturating_add(path_len(block.sender.as_ref()))
        .saturating_add(texts_len(block.lines.as_slice(), b"\n".len()))
}

/// The length of the blocks.
pub(crate) fn blocks_len(returns: &[Return]) -> usize
    ensures { result ≡ saturated (length (blocks_text returns.now)) }
{
    let mut len: usize = 0;
    for (index, block) in returns.iter().enumerate() {
        len = len.saturating_add(block_len(index + 1, block));
    }
    len
}

/// The length of what stands behind the blocks.
pub(crate) fn tail_len(findings: &[Text]) -> usize
    ensures { result ≡ saturated (length (tail_text findings.now)) }
{
    texts_len(findings, b"\n".len()).saturating_add(b"end\n".len())
}
