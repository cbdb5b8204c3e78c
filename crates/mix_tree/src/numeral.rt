// Numerals: labels that write whole numbers.
ghost use Rattle.std.specs.Prelude.{◌≡◌, ◌<◌, ◌^◌, IfSome};
ghost use Rattle.std.specs.List.{list_all};
ghost use Rattle.mix_tree.specs.LabelOrder.{is_digit, are_digits, magnitude, raised_number};

// What numbers are raised by, so that none is below 0.
const RAISE: u64 = 1_000_000_000_000_000_000;

// Whether a byte is an ASCII digit.
fn is_digit_byte(byte: u8) -> bool
    ensures { result ≡ is_digit byte }
{
    matches!(byte, b'0'..=b'9')
}

// Whether each byte of a text is an ASCII digit.
fn all_digit_bytes(text: &[u8]) -> bool
    ensures { result ≡ list_all is_digit text.now }
{
    text.iter().all(|b| is_digit_byte(*b))
}

// Whether a text is 1 to 18 ASCII digits.
fn are_digit_bytes(text: &[u8]) -> bool
    ensures { result ≡ are_digits text.now }
{
    (!text.is_empty() && text.len() <= 18) && all_digit_bytes(text)
}

// The number that 1 to 18 digits write; `None` where the text isn't that.
fn read_digits(text: &[u8]) -> Option<u64>
    ensures is { result ≡ magnitude text.now }
    ensures bound { IfSome result (λ n. n < 10 ^ 18) }
{
    if !are_digit_bytes(text) {
        return None;
    }
    let mut number = 0;
    for digit in text {
        number = number * 10 + u64::from(*digit - b'0');
    }
    Some(number)
}

/// The number that a numeral writes, raised by 10^18; `None` where the text is no numeral.
pub fn read_numeral(text: &[u8]) -> Option<u64>
    ensures { result ≡ raised_number text.now }
{
    match text {
        [b'-', digits @ ..] => Some(RAISE - read_digits(digits)?),
        _ => Some(RAISE + read_digits(text)?),
    }
}
