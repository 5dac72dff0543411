//! What goes out from somebody.
ghost use Rattle.std.specs.Prelude.{◌≡◌, Option, option_copied};
ghost use Rattle.relay_text.specs.AddressParts.{AddressParts};

use relay_text::Address;

/// A value with a sender.
pub trait HasSender {
    ghost sender_of: { Self → Option AddressParts };

    /// Whom it goes out from, none for the null sender (RFC 5321 section 4.5.5).
    fn sender(&self) -> Option<&Address>
        ensures { option_copied result ≡ sender_of self.now };
}
