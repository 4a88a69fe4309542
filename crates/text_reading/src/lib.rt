// Readers of a text: digits, the numbers made of them, and marks. Every reader is handed a text and a place in it, and answers
// what it read there and where the text goes on; none if the text has something else.
// A text and a place, and no cursor: where a reader finds nothing, its caller goes on from the place that it had.
#![tactic(auto)]

ghost use Rattle.std.specs.Prelude.{◌≡◌, ◌≤◌, ◌<◌, cond, eqb, length, drop, IfSome, Some, None};
ghost use Rattle.text_reading.specs.Numbers.{digit_value, digit_at, byte_at, word_at, count_at, mark_at, whole_word, whole_count};
ghost use Rattle.text_reading.specs.Found.{found, place_found, value_found};
ghost use Rattle.text_reading.specs.Inner.Characters.{character_at, digit_found, digit_worth};

// What was read, and where the text goes on.
#[derive(Clone, Copy)]
pub struct Reading<T> {
    pub value: T,
    pub next: usize,
}

impl<T: Copy> Reading<T> {
    // The value, if it is all that the text has.
    fn only(self, text: &[u8]) -> Option<T>
        ensures { result ≡ cond (eqb self.next (length text.now)) (Some self.value) None }
    {
        (self.next == text.len()).then_some(self.value)
    }
}

// The text from a place on; nothing if that lies past the end.
pub fn rest(text: &[u8], at: usize) -> &[u8]
    ensures { result.now ≡ drop at text.now }
{
    &text[at.min(text.len())..]
}

// The value of a digit. Lower case is no digit.
#[tactic(auto, using(crate::specs::Lemmas::Numbers::figure, crate::specs::Lemmas::Numbers::letter, crate::specs::Lemmas::Numbers::below, crate::specs::Lemmas::Numbers::between, crate::specs::Lemmas::Numbers::above))]
fn digit_value(character: u8) -> Option<u8>
    ensures { result ≡ digit_found (digit_value character) }
{
    match character {
        b'0'..=b'9' => Some(character - b'0'),
        b'A'..=b'F' => Some(character - b'A' + 10),
        _ => None,
    }
}

// One character. The largest usize is the end of no text: in specs/ it is the place after what was not found.
fn read_character(text: &[u8], at: usize) -> Option<Reading<u8>>
    ensures { result ≡ found (character_at text.now at) }
{
    let &value = text.get(at)?;
    let next = at + 1;
    (next < usize::MAX).then_some(Reading { value, next })
}

// One digit of a base.
fn read_digit(text: &[u8], at: usize, base: u8) -> Option<Reading<u8>>
    requires { base ≤ 16 }
    ensures { result ≡ found (digit_at base text.now at) }
{
    let character = read_character(text, at)?;
    let value = digit_value(character.value)?;
    (value < base).then_some(Reading { value, ..character })
}

// Two hexadecimal digits.
pub fn read_byte(text: &[u8], at: usize) -> Option<Reading<u8>>
    ensures { result ≡ found (byte_at text.now at) }
{
    let high = read_digit(text, at, 16)?;
    let low = read_digit(text, high.next, 16)?;
    Some(Reading {
        value: high.value * 16 + low.value,
        next: low.next,
    })
}

// The value of the digit at a place.
fn digit_of(text: &[u8], at: usize) -> Option<u8>
    ensures value { result ≡ digit_worth text.now at }
    ensures small { IfSome result (λ value. value < 16) }
{
    digit_value(*text.get(at)?)
}

// The byte of two hexadecimal digits, whatever stands there: what is no digit, and what follows it, counts as 0.
pub fn byte_value(text: &[u8], at: usize) -> u8
    ensures { result ≡ (byte_at text.now at).value }
{
    let Some(high) = digit_of(text, at) else {
        return 0;
    };
    match digit_of(text, at + 1) {
        Some(low) => high * 16 + low,
        None => high * 16,
    }
}

// Four hexadecimal digits.
pub fn read_word(text: &[u8], at: usize) -> Option<Reading<u16>>
    ensures { result ≡ found (word_at text.now at) }
{
    let high = read_byte(text, at)?;
    let low = read_byte(text, high.next)?;
    Some(Reading {
        value: (high.value as u16) * 256 + (low.value as u16),
        next: low.next,
    })
}

// Decimal digits: one at least, and no more than 20. A number that 64 bits do not hold is refused.
pub fn read_count(text: &[u8], at: usize) -> Option<Reading<u64>>
    ensures { result ≡ found (count_at text.now at) }
{
    let first = read_digit(text, at, 10)?;
    let mut value = first.value as u64;
    let mut next = first.next;
    for _ in 1..20u64 {
        let Some(digit) = read_digit(text, next, 10) else {
            break;
        };
        value = value.checked_mul(10)?.checked_add(digit.value as u64)?;
        next = digit.next;
    }
    Some(Reading { value, next })
}

// The place after the one character that has to stand there.
pub fn read_mark(text: &[u8], at: usize, mark: u8) -> Option<usize>
    ensures { result ≡ place_found (mark_at mark text.now at) }
{
    let character = read_character(text, at)?;
    (character.value == mark).then_some(character.next)
}

// A text that is four hexadecimal digits and nothing else.
pub fn whole_word(text: &[u8]) -> Option<u16>
    ensures { result ≡ value_found (whole_word text.now) }
{
    read_word(text, 0)?.only(text)
}

// A text that is a decimal number and nothing else.
pub fn whole_count(text: &[u8]) -> Option<u64>
    ensures { result ≡ value_found (whole_count text.now) }
{
    read_count(text, 0)?.only(text)
}
