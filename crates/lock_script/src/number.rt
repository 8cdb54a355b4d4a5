ghost use Rattle.std.specs.Prelude.{◌≡◌, ◌≤◌, ◌<◌, ◌^◌, IfSome, true};
ghost use Rattle.std.specs.Char.{is_ascii_digit};
ghost use Rattle.std.specs.List.{list_all};
ghost use Rattle.std.specs.Option.{SomeIff};
ghost use Rattle.std.specs.Str.Parse.{digits_value};
ghost use Rattle.lock_script.specs.Reading.{leads_well, number_of, number_in};

/// The number that the word spells, where it is from the least to the most.
#[tactic(auto, unfolding(crate::specs::Reading::number_in))]
pub fn number_in(word: &[u8], least: u64, most: u64) -> Option<u64>
    ensures exact { result ≡ number_in least most word.now }
    ensures range { IfSome result (λ n. (least ≤ n) × (n ≤ most)) }
{
    let n = number_of(word)?;
    if least <= n && n <= most {
        Some(n)
    } else {
        None
    }
}

/// The number that the word spells: decimal digits, of which the first is 0 in `0` alone.
#[tactic(auto, unfolding(crate::specs::Reading::number_of))]
fn number_of(word: &[u8]) -> Option<u64>
    ensures { result ≡ number_of word.now }
{
    if leads_well(word) && are_digits(word) {
        digits_value(word)
    } else {
        None
    }
}

fn leads_well(word: &[u8]) -> bool
    ensures { result ≡ leads_well word.now }
{
    match word {
        [] => false,
        [_] => true,
        [first, ..] => *first != b'0',
    }
}

fn are_digits(word: &[u8]) -> bool
    ensures { result ≡ list_all is_ascii_digit word.now }
{
    word.iter().all(|byte| byte.is_ascii_digit())
}

/// The number that the digits write, if it has a place in 64 bits.
fn digits_value(digits: &[u8]) -> Option<u64>
    requires { list_all is_ascii_digit digits.now ≡ true }
    ensures { SomeIff result (digits_value 10 digits.now < 2 ^ 64) (digits_value 10 digits.now) }
{
    let mut value = 0u64;
    for digit in digits {
        value = value
            .checked_mul(10)?
            .checked_add(u64::from(*digit - b'0'))?;
    }
    Some(value)
}
