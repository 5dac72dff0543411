//! Bytes that lie in the value itself.
ghost use Rattle.std.specs.Prelude.{◌≡◌, ◌+◌, ◌≤◌, ◌++◌, ◌∷◌, [], take, drop, length};
ghost use Rattle.relay_text.specs.Bytes.{folded};

use std::marker::Model;

/// Bytes of any value, up to `N` of them and no more than 255: the first of an array, so many.
#[derive(Drop)]
pub(crate) struct FewBytes<const N: usize> {
    len: u8,
    bytes: [u8; N],
}

impl<const N: usize> Model for FewBytes<N> {
    ghost use Rattle.std.specs.Prelude.{List, ℕ, ◌≤◌, take};

    ghost Value = { List ℕ };

    ghost view = { λ a. take a.len a.bytes };

    ghost invariant = { λ a. a.len ≤ N };
}

impl<const N: usize> FewBytes<N> {
    /// No bytes.
    #[inline(always)]
    pub(crate) fn empty() -> Self
        ensures { result ≡ [] }
    {
        FewBytes {
            len: 0,
            bytes: [0; N],
        }
    }

    /// A copy of these. One piece has a way of its own, since most names and texts are one.
    #[inline(always)]
    pub(crate) fn of(len: u8, bytes: &[u8]) -> Self
        requires len { length bytes.now ≡ len }
        requires few { len ≤ N }
        ensures { result ≡ bytes.now }
    {
        let mut room = [0; N];
        put_front(&mut room, bytes);
        FewBytes { len, bytes: room }
    }

    /// Copies of two pieces in a row.
    #[inline(always)]
    pub(crate) fn of_pieces(len: u8, front: &[u8], more: &[u8]) -> Self
        requires len { length front.now + length more.now ≡ len }
        requires few { len ≤ N }
        ensures { result ≡ front.now ++ more.now }
    {
        let mut bytes = [0; N];
        put_pieces(&mut bytes, front, more);
        FewBytes { len, bytes }
    }

    /// Copies of two pieces in a row with a byte between them, the second folded.
    #[inline(always)]
    pub(crate) fn joined_folded(len: u8, front: &[u8], between: u8, back: &[u8]) -> Self
        requires len { length front.now + length back.now + 1 ≡ len }
        requires few { len ≤ N }
        ensures { result ≡ front.now ++ between ∷ folded back.now }
    {
        let mut bytes = [0; N];
        put_joined_folded(&mut bytes, front, between, back);
        FewBytes { len, bytes }
    }

    /// The bytes in place.
    pub(crate) fn as_slice(&self) -> &[u8]
        ensures { result.now ≡ self.now }
    {
        &self.bytes[..usize::from(self.len)]
    }

    /// Puts ASCII capitals into lower case, from a place on.
    pub(crate) fn fold_from(&mut self, start: usize)
        requires { start ≤ length self.old }
        ensures { self.new ≡ take start self.old ++ folded (drop start self.old) }
    {
        let end = usize::from(self.len);
        fold_part(&mut self.bytes, start, end);
    }

    /// The same bytes.
    #[inline(always)]
    pub(crate) fn copy(&self) -> Self
        ensures { result ≡ self.now }
    {
        FewBytes {
            len: self.len,
            bytes: self.bytes,
        }
    }
}

/// Writes bytes over the first ones.
#[inline(always)]
fn put_front(room: &mut [u8], bytes: &[u8])
    requires { length bytes.now ≤ length room.old }
    ensures { take (length bytes.now) room.new ≡ bytes.now }
{
    room[..bytes.len()].copy_from_slice(bytes);
}

/// Writes two pieces in a row over the first bytes.
#[inline(always)]
fn put_pieces(room: &mut [u8], front: &[u8], more: &[u8])
    requires { length front.now + length more.now ≤ length room.old }
    ensures { take (length front.now + length more.now) room.new ≡ front.now ++ more.now }
{
    let place = front.len();
    room[..place].copy_from_slice(front);
    room[place..place + more.len()].copy_from_slice(more);
}

/// Writes two pieces in a row, with a byte between them and the second folded, over the first bytes. All of the room is folded before the
/// front is written over it, since a loop of fixed length compiles without a remainder.
#[inline(always)]
fn put_joined_folded(room: &mut [u8], front: &[u8], between: u8, back: &[u8])
    requires { length front.now + length back.now + 1 ≤ length room.old }
    ensures { take (length front.now + length back.now + 1) room.new ≡ front.now ++ between ∷ folded back.now }
{
    let place = front.len();
    room[place + 1..place + 1 + back.len()].copy_from_slice(back);
    room.make_ascii_lowercase();
    room[..place].copy_from_slice(front);
    room[place] = between;
}

/// Puts ASCII capitals of the first bytes into lower case, from a place on.
fn fold_part(bytes: &mut [u8], start: usize, end: usize)
    requires start { start ≤ end }
    requires end { end ≤ length bytes.old }
    ensures { take end bytes.new ≡ take start (take end bytes.old) ++ folded (drop start (take end bytes.old)) }
{
    fold_tail(&mut bytes[..end], start);
}

/// Puts ASCII capitals into lower case, from a place on.
fn fold_tail(bytes: &mut [u8], start: usize)
    requires { start ≤ length bytes.old }
    ensures { bytes.new ≡ take start bytes.old ++ folded (drop start bytes.old) }
{
    bytes[start..].make_ascii_lowercase();
}
