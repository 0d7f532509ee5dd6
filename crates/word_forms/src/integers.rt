ghost use Rattle.std.specs.Prelude.{◌≡◌, ◌-◌, ◌^◌, min, option_map};
ghost use Rattle.word_forms.specs.Integers.{integer_of, natural_of, within_64_bits};

// The number of at least one digit and of nothing else, cut at 2^64 - 1.
#[tactic(auto, using(crate::proofs::IntegerLaws::digit_by_digit))]
fn natural(digits: &[u8]) -> Option<u64>
    ensures { result ≡ option_map (λ n. min n (2 ^ 64 - 1)) (natural_of digits.now) }
{
    if digits.is_empty() {
        return None;
    }
    let mut number: u64 = 0;
    for digit in digits {
        if !digit.is_ascii_digit() {
            return None;
        }
        number = number
            .saturating_mul(10)
            .saturating_add(u64::from(*digit - b'0'));
    }
    Some(number)
}

// The number itself where `i64` holds it.
fn within_i64(number: i128) -> Option<i64>
    ensures { result ≡ within_64_bits number }
{
    if number < i128::from(i64::MIN) || i128::from(i64::MAX) < number {
        return None;
    }
    Some(number as i64)
}

/// The integer that a text spells: an optional `-` and at least one digit, with a value within `i64`; or none, where
/// it spells no such number. A text may have any number of digits, leading zeros too.
pub fn integer(text: &[u8]) -> Option<i64>
    ensures { result ≡ integer_of text.now }
{
    match text.strip_prefix(b"-") {
        Some(digits) => within_i64(-i128::from(natural(digits)?)),
        None => within_i64(i128::from(natural(text)?)),
    }
}
