// Digits to a number.
ghost use Rattle.std.specs.Prelude.{◌≡◌, ◌+◌, ◌-◌, ◌*◌, true, Some};
ghost use Rattle.numerals.specs.Numerals.{in_word, is_digit, whole_of};

// One digit more; nothing where 64 bits do not hold the number.
fn appended(number: u64, byte: u8) -> Option<u64>
    requires { is_digit byte ≡ true }
    ensures { result ≡ in_word (Some (number * 10 + (byte - 48))) }
{
    number.checked_mul(10)?.checked_add(u64::from(byte - b'0'))
}

// A whole number of decimal digits, below 2^64. Not `parse`, which takes a sign and refuses an empty word.
pub fn whole(word: &[u8]) -> Option<u64>
    ensures { result ≡ whole_of word.now }
{
    let mut number = 0u64;
    for byte in word {
        if !byte.is_ascii_digit() {
            return None;
        }
        number = appended(number, *byte)?;
    }
    Some(number)
}
