// A number to digits.
ghost use Rattle.std.specs.Prelude.{◌≡◌, ◌++◌, is_ok, if◌then◌else◌};
ghost use Rattle.numerals.specs.Numerals.{spelling_of};

use itoa::Buffer;
use std::alloc::AllocError;

// Appends the digits of a number.
#[tactic(auto, using(crate::proofs::Places::is_decimal, crate::proofs::Places::one_digit))]
pub fn put_number(number: u64, out: &mut Vec<u8>) -> Result<(), AllocError>
    ensures { out.new.items ≡ (if is_ok result then out.old.items ++ spelling_of number else out.old.items) }
{
    let mut buffer = Buffer::new();
    out.extend_from_slice(buffer.format(number).as_bytes())
}
