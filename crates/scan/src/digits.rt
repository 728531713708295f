// The digits of a number.
ghost use Rattle.std.specs.Prelude.{◌≡◌, ◌≤◌, length, take};
ghost use Rattle.std.specs.List.{prefix_len};
ghost use Rattle.scan.specs.Reading.{digit, value, digits_of};

const MAX_DIGITS: usize = 5;

fn is_digit(b: u8) -> bool
    ensures { result ≡ digit b }
{
    b.is_ascii_digit()
}

// As much of `bytes` as the digits of a number may be.
pub(crate) fn longest_numeral(bytes: &[u8]) -> &[u8]
    ensures part { result.now ≡ take 5 bytes.now }
    ensures few { length result.now ≤ 5 }
    ensures within { length result.now ≤ length bytes.now }
{
    &bytes[..bytes.len().min(MAX_DIGITS)]
}

// How many digits come first.
fn digit_count(bytes: &[u8]) -> usize
    ensures { result ≡ prefix_len digit bytes.now }
{
    bytes.iter().take_while(|b| is_digit(**b)).count()
}

// The digits that come first.
#[tactic(auto, using(crate::proofs::Decimal::digits_counted))]
pub(crate) fn leading_digits(bytes: &[u8]) -> &[u8]
    ensures digits { result.now ≡ digits_of bytes.now }
    ensures within { length result.now ≤ length bytes.now }
{
    &bytes[..digit_count(bytes)]
}

// A loop, since in a `fold` the proof does not know that the numbers fit (tried).
pub(crate) fn value_of(digits: &[u8]) -> usize
    requires { length digits.now ≤ 5 }
    ensures { result ≡ value digits.now }
{
    let mut number = 0;
    for d in digits {
        number = number * 10 + usize::from(d.saturating_sub(b'0'));
    }
    number
}
