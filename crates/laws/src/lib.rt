// What belongs to no layer of the machine: laws of numbers, the characters of a text (specs/), and the answers.
#![tactic(auto)]

pub mod answers; // answers.rt: the answers by name
