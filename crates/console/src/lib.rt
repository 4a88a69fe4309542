// What the programs share of their input and output: an argument, the input that it names, a sentence about it, and the
// status that is handed over. If something fails it is said on standard error here, and the console that the program holds
// keeps the first status that says so: 0 before there is one.
#![tactic(auto)]

mod arguments; // arguments.rt: the words after a program's name
mod inputs; // inputs.rt: an input that is read
mod names; // names.rt: the name of a file, as it is printed
mod outputs; // outputs.rt: text that is written, what fails, the status
mod reasons; // reasons.rt: why the system refused something
mod progress; // progress.rt: how far a long piece of work is, at a terminal

pub use arguments::{
    Names, address_argument, argument, argument_count, argument_is, count_argument,
    image_and_after, is_standard_input, name_from, names_from, steps_and_stop, stop_option,
};
pub use inputs::{Done, Input, close_input, path_of};
pub use names::{put_input_name, put_name, put_printed};
pub use outputs::{Console, hand_over, refuse};
pub use progress::{show_progress, wipe_progress};
pub use reasons::say_why;
