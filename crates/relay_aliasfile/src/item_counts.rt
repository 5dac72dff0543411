//! About how many items a text has, before it is read.
ghost use Rattle.std.specs.Prelude.{◌≡◌, ◌≤◌, length};
ghost use Rattle.relay_aliasfile.specs.ItemCounts.{about_items, separators_of};

// So many bytes at most are counted in a byte: the processor counts sixteen of them at once and more.
const BLOCK: usize = 224;

// An item is taken to have so many bytes at least, with what parts it from the next: so the room that is made ready for items stays within
// some times their text, also for a text of commas. Mailing addresses are mostly longer.
const SHORTEST: usize = 16;

/// How many commas and line feeds a block has.
fn separators_in(block: &[u8]) -> u8
    requires { length block.now ≤ BLOCK }
    ensures { result ≡ separators_of block.now }
{
    let mut separators: u8 = 0;
    for byte in block {
        separators += u8::from(*byte == b',' || *byte == b'\n');
    }
    separators
}

/// How many commas and line feeds a text has.
fn separator_count(text: &[u8]) -> usize
    ensures separators { result ≡ separators_of text.now }
    ensures most { result ≤ length text.now }
{
    let mut count = 0;
    let mut rest = text;
    while !rest.is_empty() {
        let (block, behind) = rest.split_at(rest.len().min(BLOCK));
        count += usize::from(separators_in(block));
        rest = behind;
    }
    count
}

/// About how many items the lists of a text have, one on each line. A guess, on which only hangs for how many of them room is made at once.
pub(crate) fn about_items(text: &[u8]) -> usize
    ensures { result ≡ about_items text.now }
{
    separator_count(text).min(text.len() / SHORTEST) + 1
}
