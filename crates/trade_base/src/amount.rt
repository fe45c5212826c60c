//! Numbers and amounts, parsed from text.
ghost use Rattle.std.specs.Prelude.{◌≡◌};
ghost use Rattle.trade_base.specs.Amount.{amount_of, number_of};

/// Returns the number that one or more decimal digits denote; leading zeros are accepted. Returns `None` if the text is
/// empty, contains another byte, or denotes a number above 64 bits.
#[tactic(auto, using(crate::proofs::NumberLemmas::stops_at_other, crate::proofs::NumberLemmas::stops_past, crate::proofs::NumberLemmas::goes_on, crate::proofs::NumberLemmas::number_at_end, crate::proofs::NumberLemmas::number_of_some, crate::proofs::NumberLemmas::number_of_none))]
pub fn read_number(digits: &[u8]) -> Option<u64>
    ensures { result ≡ number_of digits.now }
{
    let mut number: u64 = 0;
    for digit in digits {
        if !digit.is_ascii_digit() {
            return None;
        }
        number = number
            .checked_mul(10)?
            .checked_add(u64::from(*digit - b'0'))?;
    }
    if digits.is_empty() {
        None
    } else {
        Some(number)
    }
}

/// Returns the amount that a text denotes: a decimal number with an optional suffix. The suffixes `K`, `M` and `G`
/// multiply by 1024, 1024² and 1024³. Returns `None` if the text has another form or the amount exceeds 64 bits.
pub fn read_amount(text: &[u8]) -> Option<u64>
    ensures { result ≡ amount_of text.now }
{
    match text {
        [number @ .., b'K'] => read_number(number)?.checked_mul(1 << 10),
        [number @ .., b'M'] => read_number(number)?.checked_mul(1 << 20),
        [number @ .., b'G'] => read_number(number)?.checked_mul(1 << 30),
        _ => read_number(text),
    }
}
