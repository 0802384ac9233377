//! Reading decimal numbers, each of which has one spelling.
ghost use Rattle.std.specs.Prelude.{◌≡◌, ◌+◌, ◌^◌, ◌<◌, ◌↔◌, ℕ, ℤ, ◌∷◌, negsuc, decimal, IsTrue, IfSome, Some};
ghost use Rattle.std.specs.Fmt.{signed_decimal};
ghost use Rattle.lines.specs.Number.{IsBare, IsSigned};

/// The number below 2^64 that a word spells in digits without leading zeros, or none where it
/// spells none.
pub fn read_number(word: &str) -> Option<u64>
    ensures some { IfSome result (λ n. word.now ≡ decimal n) }
    ensures every { (n : ℕ) → n < 2 ^ 64 → word.now ≡ decimal n → result ≡ Some n }
{
    if is_bare(word) {
        word.parse::<u64>().ok()
    } else {
        None
    }
}

// Whether a word begins neither with `+` nor with a `0` that more follows.
fn is_bare(word: &str) -> bool
    ensures { IsTrue result ↔ IsBare word.now }
{
    match word.as_bytes() {
        [b'+', ..] => false,
        [b'0', _, ..] => false,
        _ => true,
    }
}

/// The number of 64 bits that a word spells in digits without leading zeros, after `-` if it is
/// below zero, or none where it spells none.
pub fn read_signed(word: &str) -> Option<i64>
    ensures some { IfSome result (λ z. word.now ≡ signed_decimal z) }
    ensures every { (z : ℤ) → IsSigned z → word.now ≡ signed_decimal z → result ≡ Some z }
{
    match word.strip_prefix('-') {
        Some(digits) => negative(read_number(digits)?),
        None => i64::try_from(read_number(word)?).ok(),
    }
}

// The number below zero of this magnitude, if there is one of 64 bits.
fn negative(magnitude: u64) -> Option<i64>
    ensures some { IfSome result (λ z. signed_decimal z ≡ 45 ∷ decimal magnitude) }
    ensures every { (k : ℕ) → k < 2 ^ 63 → magnitude ≡ k + 1 → result ≡ Some (negsuc k) }
{
    if 1 <= magnitude && magnitude <= 9_223_372_036_854_775_808 {
        Some(-((magnitude - 1) as i64) - 1)
    } else {
        None
    }
}
