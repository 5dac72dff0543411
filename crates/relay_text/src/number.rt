//! Decimal numbers.
ghost use Rattle.std.specs.Prelude.{◌≡◌, ◌^◌, ◌≤◌, IfSome, IfNone};
ghost use Rattle.std.specs.Char.{is_ascii_digit};
ghost use Rattle.std.specs.List.{list_all};
ghost use Rattle.relay_text.specs.Addresses.{is_run_of};
ghost use Rattle.relay_text.specs.Numbers.{number_within, digits_value};

/// The number that decimal digits spell, where it is from `low` to `high`. Leading zeros are taken, a sign is not; digits of any
/// length are judged by their value. `None` where the text has no digit, another byte, or a value outside the range.
pub fn number_within(low: u64, high: u64, digits: &[u8]) -> Option<u64>
    ensures { result ≡ number_within low high digits.now }
{
    if !is_number(digits) {
        return None;
    }
    match digits_value(digits) {
        Some(number) if low <= number && number <= high => Some(number),
        _ => None,
    }
}

/// At least one digit, and nothing else.
#[tactic(auto, using(crate::proofs::Domains::is_run_of_some))]
fn is_number(digits: &[u8]) -> bool
    ensures { result ≡ is_run_of is_ascii_digit digits.now }
{
    !digits.is_empty() && all_digits(digits)
}

fn all_digits(digits: &[u8]) -> bool
    ensures { result ≡ list_all is_ascii_digit digits.now }
{
    digits.iter().all(u8::is_ascii_digit)
}

/// The value of decimal digits, `None` where it takes more than 64 bits.
fn digits_value(digits: &[u8]) -> Option<u64>
    ensures some { IfSome result (λ number. number ≡ digits_value digits.now) }
    ensures none { IfNone result (2 ^ 64 ≤ digits_value digits.now) }
{
    let mut number: u64 = 0;
    for digit in digits {
        let Some(tens) = number.checked_mul(10) else {
            return None;
        };
        let Some(next) = tens.checked_add(u64::from(digit.saturating_sub(b'0'))) else {
            return None;
        };
        number = next;
    }
    Some(number)
}
