// A byte as a signed number: the overflow flag, and the target of a branch.
ghost use Rattle.std.specs.Prelude.{◌≡◌};
ghost use Rattle.manual.specs.Arithmetic.{sum_overflows};
ghost use Rattle.manual.specs.Branching.{branch_target};
ghost use Rattle.manual.specs.Words.{signed, outside};

use registers::flag;

// Tried in arithmetic and alu together: methods for std::num, `||`, or-patterns. A run then took 28.2, 39.1 and 25.5 of the
// host's instructions a step, in place of 26.5, 36.4 and 23.6.

// The byte read as a signed number, minus 128 to 127: 128 more, modulo 256, and then 128 less. (A cast to i8 would lose
// bits.)
pub(crate) fn signed(byte: u8) -> i32
    ensures { result ≡ signed byte }
{
    (std::num::wrapping_add_u8(byte, 128) as i32) - 128
}

// Whether a signed number lies outside what a byte holds.
pub(crate) fn outside(sum: i32) -> bool
    ensures { result ≡ outside sum }
{
    if sum < -128 { true } else { 127 < sum }
}

// V: the signed sum does not fit a byte. That of a difference is that of the sum with the complement.
pub(crate) fn sum_overflows(accumulator: u8, value: u8, carry_set: bool) -> bool
    ensures { result ≡ sum_overflows accumulator value carry_set }
{
    outside(signed(accumulator) + signed(value) + (flag(carry_set) as i32))
}

// The counter already stands past the branch. With 65536 more the sum is never below 0, and its remainder is the same.
pub fn branch_target(counter: u16, offset: u8) -> u16
    ensures { result ≡ branch_target counter offset }
{
    let sum = (counter as i32) + signed(offset);
    let lifted = (sum + 65536) as u32;
    (lifted % 65536) as u16
}
