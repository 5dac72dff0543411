//! Lines of bytes that come from a reader.
use aliasplan::{Feed, RunFault};
use relay_text::split_line;
use std::alloc::{AllocError, Global};
use std::marker::Model;

/// How many bytes one read asks for at most.
const CHUNK: usize = 65536;

/// The bytes that were read and not used yet.
#[derive(Drop)]
pub(crate) struct Pending {
    room: Vec<u8>,
    used: usize,
    held: usize,
}

impl Model for Pending {
    ghost use Rattle.std.specs.Prelude.{ℕ, List, ◌<◌, ◌≤◌, vec_len, slice_range};

    ghost Value = { List ℕ };

    ghost view = { λ p. slice_range p.room.items p.used p.held };

    ghost invariant = { λ p. (p.used ≤ p.held) × (p.held ≤ vec_len p.room) × (0 < vec_len p.room) };
}

impl Pending {
    ghost use Rattle.std.specs.Prelude.{◌≡◌, ◌≢◌, ◌<◌, ◌≤◌, ◌+◌, ◌-◌, ◌^◌, ◌==◌, true, false, [], length, vec_len, Ok, Err, IfOk, IfErr, OnOk, IfSome};
    ghost use Rattle.std.specs.List.{position_or_len};
    ghost use Rattle.std.specs.Io.KnownBytes.{IsAtEnd, Keeps, prepend_known};
    ghost use Rattle.aliasplan.specs.Outcomes.{IsReadFault};
    ghost use Rattle.aliasplan_each.specs.Pieces.{IsMoved, LosesLine};

    /// No bytes.
    pub(crate) fn none(alloc: Global) -> Result<Pending, AllocError>
        ensures { IfOk result (λ pending. pending ≡ []) }
    {
        let room = vec![in alloc; 0u8; CHUNK]?;
        Ok(Pending {
            room,
            used: 0,
            held: 0,
        })
    }

    // Reads once where no byte is pending. False where none is to come.
    fn fill<F: Feed>(&mut self, reader: &mut F) -> Result<bool, RunFault>
        requires works { F.has_failed reader.old ≡ false }
        requires told { F.has_ended reader.old ≡ true → IsAtEnd (F.remaining reader.old) }
        ensures kept { OnOk result (Keeps (prepend_known self.old (F.remaining reader.old)) (prepend_known self.new (F.remaining reader.new))) }
        ensures some { result ≡ Ok true → 0 < length self.new }
        ensures none { result ≡ Ok false → (self.new ≡ []) × (F.has_ended reader.new ≡ true) }
        ensures told { OnOk result (F.has_ended reader.new ≡ true → IsAtEnd (F.remaining reader.new)) }
        ensures works { OnOk result (F.has_failed reader.new ≡ false) }
        ensures read { IfErr result (λ fault. (fault ≡ RunFault.Read) × (F.has_failed reader.new ≡ true)) }
    {
        if self.used < self.held {
            return Ok(true);
        }
        if reader.ended() {
            return Ok(false);
        }
        let Ok(count) = reader.read(&mut self.room) else {
            return Err(RunFault::Read);
        };
        self.used = 0;
        self.held = count;
        Ok(count > 0)
    }

    // Puts the pending bytes up to the first LF, or all where none stands there, at the end of a line. True where the LF is there.
    fn give(&mut self, line: &mut Vec<u8>) -> Result<bool, AllocError>
        requires { 0 < length self.old }
        ensures { IfOk result (λ is_whole. IsMoved is_whole self.old self.new line.old.items line.new.items) }
    {
        let Some((piece, _)) = split_line(&self.room[self.used..self.held]) else {
            unreachable!()
        };
        line.extend_from_slice(piece)?;
        let len = piece.len();
        let is_whole = piece[len - 1] == b'\n';
        self.used += len;
        Ok(is_whole)
    }

    /// Puts the next line, with its LF, into an empty one; of one with more than `max` bytes, one byte more. False where none is to come; then
    /// the reader has ended. TooLong where a line has more bytes than 64 bits can count.
    ///
    /// Each byte is looked at once and moved once.
    pub(crate) fn next_line<F: Feed>(
        &mut self,
        reader: &mut F,
        line: &mut Vec<u8>,
        max: usize,
    ) -> Result<bool, RunFault>
        requires works { F.has_failed reader.old ≡ false }
        requires told { F.has_ended reader.old ≡ true → IsAtEnd (F.remaining reader.old) }
        requires empty { line.old.items ≡ [] }
        requires max { max < 2 ^ 32 }
        ensures line { result ≡ Ok true → LosesLine max (prepend_known self.old (F.remaining reader.old)) line.new.items (prepend_known self.new (F.remaining reader.new)) }
        ensures ends_once { OnOk result (length line.new.items ≤ position_or_len (λ b. b == 10) line.new.items + 1) }
        ensures none { result ≡ Ok false → (IsAtEnd (prepend_known self.old (F.remaining reader.old))) × (IsAtEnd (prepend_known self.new (F.remaining reader.new))) × (Keeps (prepend_known self.old (F.remaining reader.old)) (prepend_known self.new (F.remaining reader.new))) × (F.has_ended reader.new ≡ true) }
        ensures only { IfErr result IsReadFault }
        ensures long { result ≡ Err RunFault.TooLong → IfSome (prepend_known self.old (F.remaining reader.old)) (λ bytes. 2 ^ 64 - 1 ≤ length bytes) }
        ensures told { OnOk result (F.has_ended reader.new ≡ true → IsAtEnd (F.remaining reader.new)) }
        ensures read { (result ≡ Err RunFault.Read → F.has_failed reader.new ≡ true) × (result ≢ Err RunFault.Read → F.has_failed reader.new ≡ false) }
    {
        for _ in 0..u64::MAX {
            if !self.fill(reader)? {
                return Ok(!line.is_empty());
            }
            let is_whole = self.give(line)?;
            line.truncate(max + 1);
            if is_whole {
                return Ok(true);
            }
        }
        Err(RunFault::TooLong)
    }
}
