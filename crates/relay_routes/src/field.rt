//! The fields of a table's lines, each read once: where it ends, whether it is a domain name, and whether folding changes it.
use crate::field_reading::FieldReading;
use relay_text::{Text, trimmed_start};
use std::alloc::{AllocError, Global};
use std::marker::Model;

/// A text that ends before white space, which contracts see as its bytes, and what its one reading found.
#[derive(Drop)]
pub(crate) struct Field<'a> {
    text: &'a [u8],
    /// Whether it is a domain name.
    is_joined: bool,
    /// Whether it is `.` and a domain name.
    is_led: bool,
    has_capital: bool,
}

impl<'a> Model for Field<'a> {
    ghost use Rattle.std.specs.Prelude.{◌≡◌, List, ℕ, false};
    ghost use Rattle.relay_text.specs.Bytes.{folded};
    ghost use Rattle.relay_text.specs.Addresses.{is_domain_name};
    ghost use Rattle.relay_routes.specs.Fields.{is_parent};

    ghost Value = { List ℕ };

    ghost view = { λ a. a.text.now };

    ghost invariant = { λ a. (a.is_joined ≡ is_domain_name a.text.now) × (a.is_led ≡ is_parent a.text.now) × (a.has_capital ≡ false → folded a.text.now ≡ a.text.now) };
}

ghost use Rattle.std.specs.Prelude.{◌≡◌, ◌∷◌, [], IfOk, IfSome, IfNone};
ghost use Rattle.relay_text.specs.Bytes.{folded};
ghost use Rattle.relay_text.specs.Addresses.{is_domain_name};
ghost use Rattle.relay_routes.specs.Exchanges.{fields_of};
ghost use Rattle.relay_routes.specs.Fields.{front_field, is_parent};

impl<'a> Field<'a> {
    /// The first field of a text, behind white space, and what follows it; `None` where there is none.
    pub(crate) fn split(text: &'a [u8]) -> Option<(Field<'a>, &'a [u8])>
        ensures none { IfNone result (fields_of text.now ≡ []) }
        ensures some { IfSome result (λ split. fields_of text.now ≡ split.0 ∷ fields_of split.1.now) }
    {
        let start = trimmed_start(text);
        if start.is_empty() {
            return None;
        }
        let field = Field::at_front(start);
        let rest = &start[field.text.len()..];
        Some((field, rest))
    }

    /// The bytes before a text's first white space.
    pub(crate) fn at_front(text: &'a [u8]) -> Field<'a>
        ensures { result ≡ front_field text.now }
    {
        let has_dot = matches!(text, [b'.', ..]);
        let dot = usize::from(has_dot);
        let reading = FieldReading::at_front(&text[dot..]);
        Field {
            text: &text[..dot + reading.len],
            is_joined: !has_dot && reading.is_joined,
            is_led: has_dot && reading.is_joined,
            has_capital: reading.has_capital,
        }
    }

    /// Its bytes.
    pub(crate) fn text(&self) -> &'a [u8]
        ensures { result.now ≡ self.now }
    {
        self.text
    }

    /// Whether it is a domain name.
    pub(crate) fn is_domain_name(&self) -> bool
        ensures { result ≡ is_domain_name self.now }
    {
        self.is_joined
    }

    /// Whether it is `.` and a domain name.
    pub(crate) fn is_parent(&self) -> bool
        ensures { result ≡ is_parent self.now }
    {
        self.is_led
    }

    /// A copy with its ASCII capitals in lower case. `Err` where memory runs out.
    pub(crate) fn folded_copy(&self, alloc: Global) -> Result<Text, AllocError>
        ensures { IfOk result (λ text. text ≡ folded self.now) }
    {
        if self.has_capital {
            Text::folded_copy_of(alloc, self.text)
        } else {
            Text::copy_of(alloc, self.text)
        }
    }
}
