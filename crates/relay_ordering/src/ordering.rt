//! Values by their senders' paths.
ghost use Rattle.std.specs.Prelude.{◌≡◌, ◌≢◌, ◌↔◌, map, AllPairs, All, Contains, IfOk};
ghost use Rattle.relay_text.specs.TextSets.{IsAscendingBy};
ghost use Rattle.relay_ordering.specs.Keys.{sender_cmp, IsKeyed};

use crate::has_sender::HasSender;
use crate::keyed::Keyed;
use relay_text::{Seq, one_spelling, write_path};
use std::alloc::{AllocError, Global};

// A value beside the path of its sender.
fn keyed<T: HasSender + Drop>(alloc: Global, value: T) -> Result<Keyed<T>, AllocError>
    ensures value { IfOk result (λ key. key.value ≡ value) }
    ensures keyed { IfOk result (IsKeyed T.sender_of) }
{
    let sender = value.sender();
    if let Some(address) = sender {
        // For what the call says alone: the address is within the limits.
        let _ = address.local();
    }
    let mut path = Vec::new(alloc);
    write_path(sender, &mut path)?;
    Ok(Keyed { path, value })
}

// Values beside the paths of their senders.
fn keys_of<T: HasSender + Drop>(alloc: Global, values: Vec<T>) -> Result<Vec<Keyed<T>>, AllocError>
    ensures values { IfOk result (λ keys. map (λ k. k.value) keys.items ≡ values.items) }
    ensures keyed { IfOk result (λ keys. All (IsKeyed T.sender_of) keys.items) }
{
    let mut keys = Vec::with_capacity(alloc, values.len())?;
    for value in values {
        keys.push(keyed(alloc, value)?)?;
    }
    Ok(keys)
}

// The values without their keys.
fn values_of<T: Drop>(alloc: Global, keys: Vec<Keyed<T>>) -> Result<Vec<T>, AllocError>
    ensures { IfOk result (λ sorted. sorted.items ≡ map (λ k. k.value) keys.items) }
{
    let mut sorted = Vec::with_capacity(alloc, keys.len())?;
    for key in keys {
        sorted.push(key.value)?;
    }
    Ok(sorted)
}

/// The values in the order of their senders' paths, by their bytes. No two have one sender. `Err` where memory runs out.
pub fn in_order<T: HasSender + Drop>(alloc: Global, values: Vec<T>) -> Result<Seq<T>, AllocError>
    requires { AllPairs (λ a b. T.sender_of a ≢ T.sender_of b) values.items }
    ensures members { IfOk result (λ sorted. (v : T) → Contains sorted v ↔ Contains values.items v) }
    ensures ascending { IfOk result (IsAscendingBy (sender_cmp T.sender_of)) }
{
    one_spelling();
    let mut keys = keys_of(alloc, values)?;
    keys.sort_unstable();
    let sorted = values_of(alloc, keys)?;
    Ok(Seq::of(sorted))
}
