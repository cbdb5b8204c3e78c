// Numbers as a plan's text has them.
ghost use Rattle.std.specs.Prelude.{◌≡◌, ◌^◌, ◌-◌, Some, None, cond, min, true};
ghost use Rattle.std.specs.List.{list_all};
ghost use Rattle.std.specs.Str.Parse.{digits_value};
ghost use Rattle.mix_tree.specs.LabelOrder.{is_digit};
ghost use Rattle.plan_read.specs.Numbers.{is_decimal, op_number, var_number};

// Whether a byte is an ASCII digit.
fn is_digit_byte(byte: u8) -> bool
    ensures { result ≡ is_digit byte }
{
    matches!(byte, b'0'..=b'9')
}

// Whether each byte is an ASCII digit.
fn are_digits(bytes: &[u8]) -> bool
    ensures { result ≡ list_all is_digit bytes.now }
{
    bytes.iter().all(|b| is_digit_byte(*b))
}

// Whether a word is a number without leading zeros.
fn is_decimal(word: &[u8]) -> bool
    ensures { result ≡ is_decimal word.now }
{
    match word {
        [] => false,
        [digit] => is_digit_byte(*digit),
        [first, ..] => *first != b'0' && are_digits(word),
    }
}

// The number that digits mean; the greatest of 64 bits where it is greater.
fn value(digits: &[u8]) -> u64
    requires { list_all is_digit digits.now ≡ true }
    ensures { result ≡ min (digits_value 10 digits.now) (2 ^ 64 - 1) }
{
    let mut value: u64 = 0;
    for digit in digits {
        value = value
            .saturating_mul(10)
            .saturating_add(u64::from(*digit - b'0'));
    }
    value
}

// The number of a word, as far as 64 bits go; `None` where the word is no number.
fn decimal(word: &[u8]) -> Option<u64>
    ensures { result ≡ cond (is_decimal word.now) (Some (min (digits_value 10 word.now) (2 ^ 64 - 1))) None }
{
    if !is_decimal(word) {
        return None;
    }
    Some(value(word))
}

/// The number of an operator; the greatest of 32 bits where it is greater. `None` where the word is no number.
pub fn op_number(word: &[u8]) -> Option<u32>
    ensures { result ≡ op_number word.now }
{
    let number = decimal(word)?;
    Some(u32::try_from(number).unwrap_or(u32::MAX))
}

/// The number of a variable without a name; `None` where the word is no number of 32 bits.
pub fn var_number(word: &[u8]) -> Option<u32>
    ensures { result ≡ var_number word.now }
{
    let number = decimal(word)?;
    u32::try_from(number).ok()
}
