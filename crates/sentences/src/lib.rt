// How a run ended, as text: its line, and a sentence.
#![tactic(auto)]

mod line; // line.rt: the line
mod sentence; // sentence.rt: the sentence

pub use line::{LONGEST_LINE, put_line};
pub use sentence::{LONGEST_SENTENCE, put_refused, put_sentence};
