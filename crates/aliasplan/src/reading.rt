//! Reading a job.
ghost use Rattle.std.specs.Prelude.{◌≡◌, ◌≢◌, ◌<◌, ◌≤◌, ◌==◌, false, true, length, Ok, Err, IfOk, IfErr, OnOk, IfSome, vec_len};
ghost use Rattle.std.specs.Io.KnownBytes.{IsAtEnd};
ghost use Rattle.aliasplan.specs.Outcomes.{IsReadFault};
ghost use Rattle.aliasplan.specs.Transfers.{Takes};

use crate::device::Feed;
use relay_job::RunFault;
use relay_text::Text;
use std::alloc::{AllocError, Global};

/// How many bytes one read asks for at most: few enough that they are still in the nearest cache when they are put behind the rest, and that the
/// C library doesn't copy them byte by byte, as those who count instructions see it.
const CHUNK: usize = 8_000;

/// For how many bytes there is room before the first read: most jobs are shorter. A longer one gets room for the longest at once, since
/// of room that isn't filled no memory is touched, and what is filled needn't be moved then. Where that much is refused, less will do, and what
/// was too much is given back when all is read.
const FIRST_ROOM: usize = 1 << 20;

// Room for some bytes.
fn room_for(alloc: Global, len: usize) -> Result<Vec<u8>, AllocError>
    ensures { IfOk result (λ room. vec_len room ≡ len) }
{
    vec![in alloc; 0u8; len]
}

// Asks for room for the most that may come, where there is less than for so many bytes. Where so much isn't to be had, the text takes memory
// as bytes come.
fn make_room(text: &mut Vec<u8>, len: usize, most: usize)
    ensures items { text.new.items ≡ text.old.items }
    ensures len { vec_len text.new ≡ vec_len text.old }
{
    if text.capacity() - text.len() < len {
        let _ = text.reserve_exact(most);
    }
}

// One read, whose bytes go to the end of the text.
fn read_some<F: Feed>(
    reader: &mut F,
    room: &mut [u8],
    text: &mut Vec<u8>,
) -> Result<usize, RunFault>
    requires fresh { (F.has_failed reader.old ≡ false) × (F.has_ended reader.old ≡ false) }
    requires room { 0 < length room.old }
    ensures taken { IfOk result (λ count. Takes (F.remaining reader.old) (F.remaining reader.new) text.old.items text.new.items count) }
    ensures within { IfOk result (λ count. count ≤ length room.old) }
    ensures at_end { result ≡ Ok 0 → IsAtEnd (F.remaining reader.new) }
    ensures ended { IfOk result (λ count. F.has_ended reader.new ≡ (count == 0)) }
    ensures read { (result ≡ Err RunFault.Read → F.has_failed reader.new ≡ true) × (result ≢ Err RunFault.Read → F.has_failed reader.new ≡ false) }
    ensures only { IfErr result (λ fault. IsReadFault fault) }
    ensures not_long { result ≢ Err RunFault.TooLong }
{
    let Ok(count) = reader.read(room) else {
        return Err(RunFault::Read);
    };
    text.extend_from_slice(&room[..count])?;
    Ok(count)
}

/// All bytes until the reader has ended.
pub fn read_job<F: Feed>(alloc: Global, reader: &mut F, max: usize) -> Result<Text, RunFault>
    requires fresh { (F.has_failed reader.old ≡ false) × (F.has_ended reader.old ≡ false) }
    requires max { max ≤ 67108864 }
    ensures all { IfOk result (λ text. IfSome (F.remaining reader.old) (λ input. text ≡ input)) }
    ensures size { IfOk result (λ text. length text ≤ max) }
    ensures at_end { OnOk result (IsAtEnd (F.remaining reader.new)) }
    ensures ended { OnOk result (F.has_ended reader.new ≡ true) }
    // Read exactly where the reader failed.
    ensures read { (result ≡ Err RunFault.Read → F.has_failed reader.new ≡ true) × (result ≢ Err RunFault.Read → F.has_failed reader.new ≡ false) }
    // TooLong exactly where more than `max` bytes came.
    ensures too_long { result ≡ Err RunFault.TooLong → IfSome (F.remaining reader.old) (λ input. max < length input) }
    ensures only { IfErr result (λ fault. IsReadFault fault) }
{
    let mut chunk = room_for(alloc, CHUNK)?;
    let mut text: Vec<u8> = Vec::with_capacity(alloc, FIRST_ROOM)?;
    for _ in 0..max + 1 {
        let most = max + 1 - text.len();
        let room = most.min(chunk.len());
        make_room(&mut text, room, most);
        let count = read_some(reader, &mut chunk[..room], &mut text)?;
        if count == 0 {
            // What isn't filled counts where a process may have only so much.
            text.shrink_to_fit();
            return Ok(Text::of(text));
        }
        if text.len() > max {
            return Err(RunFault::TooLong);
        }
    }
    unreachable!()
}
