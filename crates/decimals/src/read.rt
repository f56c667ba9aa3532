ghost use Rattle.std.specs.Prelude.{◌≡◌};
ghost use Rattle.decimals.specs.Numbers.{numeral, ReadsDecimal};
ghost use Rattle.decimals.specs.Digits.{one_more, digits_behind};

// The number whose digits are those of n and then `b`, if `b` is a digit and the number fits.
fn with_digit(n: u32, b: u8) -> Option<u32>
    ensures { result ≡ one_more n b }
{
    if !b.is_ascii_digit() {
        return None;
    }
    n.checked_mul(10)?.checked_add(u32::from(b - b'0'))
}

// The number that the digits write, if it fits; leading zeros are let through.
fn digits(text: &[u8]) -> Option<u32>
    ensures { result ≡ digits_behind 0 text.now }
{
    // kept: by `try_fold` the proof of `returns` did not close; the library has no law of it over a slice.
    let mut n = 0;
    for b in text {
        n = with_digit(n, *b)?;
    }
    Some(n)
}

// A decimal number without leading zeros, at most 4294967295.
#[tactic(auto, using(crate::proofs::NumberLaws::exactly))]
pub fn read_number(text: &[u8]) -> Option<u32>
    ensures value { result ≡ numeral text.now }
    ensures exact { ReadsDecimal text.now result }
{
    match text {
        [] => None,
        [b'0', _, ..] => None,
        _ => digits(text),
    }
}
