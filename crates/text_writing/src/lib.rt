// Text written into a lent buffer. What does not fit is dropped, and the place after the text is the same: so none needs room, and
// the length of a text is the place after it on any buffer. If a text ends past the largest usize, that is the place.
// Methods over bytes and no Display: no promise can be given of what a formatter writes.
#![tactic(auto)]

ghost use Rattle.std.specs.Prelude.{◌≡◌, ◌≤◌, length};
ghost use Rattle.text_writing.specs.Delivered.{answer_in, numbers_of};

use laws::answers::{NOT_REFUSED, Refusal};

mod put; // put.rt: what a writer writes

// A buffer that is lent to be written into, and where the text goes on in it.
#[derive(Drop)]
pub struct Writer<'a> {
    out: &'a mut [u8],
    at: usize,
    // neither the buffer's end nor the place lies past the largest usize
    ghost bounded: { (length out.now ≤ 18446744073709551615) × (at ≤ 18446744073709551615) },
}

// The answer number of what may be refused: 0 if it is not.
pub fn answer_in(refusal: Option<Refusal>) -> u8
    ensures { result ≡ answer_in refusal }
{
    match refusal {
        None => NOT_REFUSED,
        Some(refusal) => refusal.into(),
    }
}

// What a host in C is told of a text that was delivered into its buffer: the answer, and the length of the text, 0 if it is refused.
pub fn numbers_of(delivered: Result<usize, Refusal>) -> (u8, usize)
    ensures { result ≡ numbers_of delivered }
{
    match delivered {
        Ok(size) => (NOT_REFUSED, size),
        Err(refusal) => (refusal.into(), 0),
    }
}
