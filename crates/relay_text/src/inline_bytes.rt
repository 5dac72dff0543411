//! Bytes that lie in the value itself where they are few.
ghost use Rattle.std.specs.Prelude.{◌≡◌, ◌+◌, ◌<◌, ◌≤◌, ◌++◌, ◌∷◌, [], min, take, drop, length, IfSome, IfNone, IfOk, OnOk, OnErr};
ghost use Rattle.relay_text.specs.Bytes.{folded};
ghost use Rattle.relay_text.specs.InlineBytes.{headed_bytes_in, IsWithin};

use crate::few_bytes::FewBytes;
use crate::room::put_bytes;
use std::alloc::{AllocError, Global};
use std::marker::Model;

/// Where the bytes lie. The head stands beside them, where it takes no room of its own.
#[derive(Drop)]
enum Kept<H, const N: usize> {
    /// In the value.
    Short { head: H, few: FewBytes<N> },
    /// Memory of their own.
    Long { head: H, bytes: Vec<u8> },
}

/// A head, and bytes of any value: up to `N` of them lie in the value itself, more in memory of their own.
#[derive(Drop)]
pub(crate) struct InlineBytes<H, const N: usize> {
    kept: Kept<H, N>,
}

impl<H, const N: usize> Model for InlineBytes<H, N> {
    ghost use Rattle.relay_text.specs.HeadedBytes.{HeadedBytes, headed_bytes_code};

    ghost Value = { HeadedBytes H };

    ghost coded = { headed_bytes_code H.code };

    ghost use Rattle.relay_text.specs.InlineBytes.{headed_bytes_in, IsWithin};

    ghost view = { λ a. headed_bytes_in a.kept };

    ghost invariant = { λ a. IsWithin a.kept };
}

impl<H, const N: usize> Kept<H, N> {
    /// Puts ASCII capitals into lower case, from a place on.
    fn fold_from(&mut self, start: usize)
        requires within { IsWithin self.old }
        requires start { start ≤ length (headed_bytes_in self.old).bytes }
        ensures within { IsWithin self.new }
        ensures head { (headed_bytes_in self.new).head ≡ (headed_bytes_in self.old).head }
        ensures bytes { (headed_bytes_in self.new).bytes ≡ take start (headed_bytes_in self.old).bytes ++ folded (drop start (headed_bytes_in self.old).bytes) }
    {
        match self {
            Kept::Short { few, .. } => few.fold_from(start),
            Kept::Long { bytes, .. } => fold_behind(bytes, start),
        }
    }
}

impl<H: Copy, const N: usize> InlineBytes<H, N> {
    /// Bytes that lie in the value.
    #[inline(always)]
    fn short(head: H, few: FewBytes<N>) -> Self
        ensures head { result.head ≡ head }
        ensures bytes { result.bytes ≡ few.entry }
    {
        InlineBytes {
            kept: Kept::Short { head, few },
        }
    }

    /// Bytes for which there is no room in the value.
    #[inline(always)]
    fn long(head: H, bytes: Vec<u8>) -> Self
        requires { min N 255 < length bytes.items }
        ensures head { result.head ≡ head }
        ensures bytes { result.bytes ≡ bytes.items }
    {
        InlineBytes {
            kept: Kept::Long { head, bytes },
        }
    }

    /// No bytes, without taking memory.
    pub(crate) fn empty(head: H) -> Self
        ensures head { result.head ≡ head }
        ensures bytes { result.bytes ≡ [] }
    {
        InlineBytes::short(head, FewBytes::empty())
    }

    /// A copy of these bytes. `Err` where memory runs out.
    pub(crate) fn copy_of(alloc: Global, head: H, bytes: &[u8]) -> Result<Self, AllocError>
        ensures head { IfOk result (λ a. a.head ≡ head) }
        ensures bytes { IfOk result (λ a. a.bytes ≡ bytes.now) }
        ensures full { OnErr result (min N 255 < length bytes.now) }
    {
        match inline_len(bytes.len(), N) {
            Some(len) => Ok(InlineBytes::short(head, FewBytes::of(len, bytes))),
            None => match Vec::from_slice(alloc, bytes) {
                Ok(bytes) => Ok(InlineBytes::long(head, bytes)),
                Err(error) => Err(error),
            },
        }
    }

    /// These bytes, without taking memory.
    pub(crate) fn of(head: H, bytes: Vec<u8>) -> Self
        ensures head { result.head ≡ head }
        ensures bytes { result.bytes ≡ bytes.items }
    {
        match inline_len(bytes.len(), N) {
            Some(len) => InlineBytes::short(head, FewBytes::of(len, bytes.as_slice())),
            None => InlineBytes::long(head, bytes),
        }
    }

    /// Copies of two pieces in a row with a byte between them, the second folded. `Err` where memory runs out.
    pub(crate) fn joined_folded_of(
        alloc: Global,
        head: H,
        front: &[u8],
        between: u8,
        back: &[u8],
    ) -> Result<Self, AllocError>
        ensures head { IfOk result (λ a. a.head ≡ head) }
        ensures bytes { IfOk result (λ a. a.bytes ≡ front.now ++ between ∷ folded back.now) }
    {
        match inline_len(front.len() + back.len() + 1, N) {
            Some(len) => Ok(InlineBytes::short(
                head,
                FewBytes::joined_folded(len, front, between, back),
            )),
            None => match joined_folded(alloc, front, between, back) {
                Ok(bytes) => Ok(InlineBytes::long(head, bytes)),
                Err(error) => Err(error),
            },
        }
    }

    /// The head.
    pub(crate) fn head(&self) -> H
        ensures { result ≡ self.now.head }
    {
        match &self.kept {
            Kept::Short { head, .. } => *head,
            Kept::Long { head, .. } => *head,
        }
    }

    /// The bytes in place.
    pub(crate) fn as_slice(&self) -> &[u8]
        ensures { result.now ≡ self.now.bytes }
    {
        match &self.kept {
            Kept::Short { few, .. } => few.as_slice(),
            Kept::Long { bytes, .. } => bytes.as_slice(),
        }
    }

    /// The bytes in memory of their own. `Err` where memory runs out.
    pub(crate) fn into_vec(self, alloc: Global) -> Result<Vec<u8>, AllocError>
        ensures { IfOk result (λ bytes. bytes.items ≡ self.bytes) }
    {
        match self.kept {
            Kept::Short { few, .. } => Vec::from_slice(alloc, few.as_slice()),
            Kept::Long { bytes, .. } => Ok(bytes),
        }
    }

    /// The same bytes under another head.
    pub(crate) fn with_head<G: Copy>(self, head: G) -> InlineBytes<G, N>
        ensures head { result.head ≡ head }
        ensures bytes { result.bytes ≡ self.bytes }
    {
        match self.kept {
            Kept::Short { few, .. } => InlineBytes::short(head, few),
            Kept::Long { bytes, .. } => InlineBytes::long(head, bytes),
        }
    }

    /// Puts bytes at the end. `Err` where memory runs out; the bytes are then as they were.
    pub(crate) fn append(&mut self, alloc: Global, more: &[u8]) -> Result<(), AllocError>
        ensures head { self.new.head ≡ self.old.head }
        ensures ok { OnOk result (self.new.bytes ≡ self.old.bytes ++ more.now) }
        ensures err { OnErr result (self.new.bytes ≡ self.old.bytes) }
        ensures full { OnErr result (min N 255 < length self.old.bytes + length more.now) }
    {
        if let Kept::Long { bytes, .. } = &mut self.kept {
            return bytes.extend_from_slice(more);
        }
        let joined = self.joined(alloc, more)?;
        *self = joined;
        Ok(())
    }

    /// These bytes, and more behind them. `Err` where memory runs out.
    fn joined(&self, alloc: Global, more: &[u8]) -> Result<Self, AllocError>
        ensures head { IfOk result (λ a. a.head ≡ self.now.head) }
        ensures bytes { IfOk result (λ a. a.bytes ≡ self.now.bytes ++ more.now) }
        ensures full { OnErr result (min N 255 < length self.now.bytes + length more.now) }
    {
        let front = self.as_slice();
        let head = self.head();
        match inline_len(front.len() + more.len(), N) {
            Some(len) => Ok(InlineBytes::short(head, FewBytes::of_pieces(len, front, more))),
            None => match both(alloc, front, more) {
                Ok(bytes) => Ok(InlineBytes::long(head, bytes)),
                Err(error) => Err(error),
            },
        }
    }

    /// Puts ASCII capitals into lower case, from a place on.
    pub(crate) fn fold_from(&mut self, start: usize)
        requires { start ≤ length self.old.bytes }
        ensures head { self.new.head ≡ self.old.head }
        ensures bytes { self.new.bytes ≡ take start self.old.bytes ++ folded (drop start self.old.bytes) }
    {
        self.kept.fold_from(start);
    }

    /// The same in memory of its own. `Err` where memory runs out.
    pub(crate) fn copy(&self, alloc: Global) -> Result<Self, AllocError>
        ensures same { IfOk result (λ a. a ≡ self.now) }
        ensures full { OnErr result (min N 255 < length self.now.bytes) }
    {
        match &self.kept {
            Kept::Short { head, few } => Ok(InlineBytes::short(*head, few.copy())),
            Kept::Long { head, bytes } => match Vec::from_slice(alloc, bytes.as_slice()) {
                Ok(bytes) => Ok(InlineBytes::long(*head, bytes)),
                Err(error) => Err(error),
            },
        }
    }
}

/// A length as it stands beside bytes that lie in the value, where there is room for so many.
fn inline_len(len: usize, room: usize) -> Option<u8>
    ensures some { IfSome result (λ n. (n ≡ len) × (len ≤ room)) }
    ensures none { IfNone result (min room 255 < len) }
{
    if len > room {
        return None;
    }
    u8::try_from(len).ok()
}

/// Copies of two pieces in a row, in memory of their own. `Err` where memory runs out.
fn both(alloc: Global, front: &[u8], more: &[u8]) -> Result<Vec<u8>, AllocError>
    ensures { IfOk result (λ bytes. bytes.items ≡ front.now ++ more.now) }
{
    let mut bytes = Vec::with_capacity(alloc, front.len() + more.len())?;
    put_bytes(front, &mut bytes);
    put_bytes(more, &mut bytes);
    Ok(bytes)
}

/// The same with a byte between them, the second piece folded.
fn joined_folded(
    alloc: Global,
    front: &[u8],
    between: u8,
    back: &[u8],
) -> Result<Vec<u8>, AllocError>
    ensures { IfOk result (λ bytes. bytes.items ≡ front.now ++ between ∷ folded back.now) }
{
    let mut bytes = Vec::with_capacity(alloc, front.len() + back.len() + 1)?;
    put_bytes(front, &mut bytes);
    bytes.push_reserved(between);
    put_bytes(back, &mut bytes);
    fold_behind(&mut bytes, front.len() + 1);
    Ok(bytes)
}

/// Puts ASCII capitals into lower case, from a place on.
fn fold_behind(bytes: &mut Vec<u8>, start: usize)
    requires { start ≤ length bytes.old.items }
    ensures { bytes.new.items ≡ take start bytes.old.items ++ folded (drop start bytes.old.items) }
{
    bytes[start..].make_ascii_lowercase();
}
