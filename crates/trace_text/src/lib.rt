// The text of a trace: the entry of a step, and the sentence about a trace that was checked.
#![tactic(auto)]

mod entry; // entry.rt: the entry
mod finding; // finding.rt: the sentence

pub use entry::put_entry;
pub use finding::{LONGEST_FINDING, LONGEST_VERDICT, put_finding, put_verdict};

// What is shown of a run: the states, from the one that it starts with, or the steps and their cycles. An
// enum and no trait: the definitions `trace` and `longest` are over it.
#[derive(Clone, Copy)]
pub enum View {
    States,
    Steps,
}
