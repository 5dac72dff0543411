//! Names with ASCII capitals in lower case.
ghost use Rattle.std.specs.Prelude.{◌≡◌, false, OnOk};
ghost use Rattle.relay_text.specs.Bytes.{folded};

use relay_text::fold;
use std::alloc::AllocError;

/// Whether some byte is an ASCII capital, so that folding changes the name.
pub(crate) fn has_capitals(name: &[u8]) -> bool
    ensures { result ≡ false → folded name.now ≡ name.now }
{
    name.iter().any(|byte| byte.is_ascii_uppercase())
}

/// Writes a name folded, over what stood there. `Err` where memory runs out.
pub(crate) fn write_folded(local: &[u8], name: &mut Vec<u8>) -> Result<(), AllocError>
    ensures name { OnOk result (name.new.items ≡ folded local.now) }
    ensures folded { OnOk result (folded name.new.items ≡ name.new.items) }
{
    name.clear();
    name.extend_from_slice(local)?;
    fold(name);
    Ok(())
}
