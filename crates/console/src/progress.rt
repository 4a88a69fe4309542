// How far a long piece of work is, if standard error is a terminal: one line that is renewed.
use crate::outputs::tell;
use std::io::IsTerminal;

// Shows a count, with a word for what is counted.
pub fn show_progress(rt: HostRuntime, program: &[u8], count: u64, counted: &[u8]) {
    if rt.stderr().is_terminal() {
        tell(rt, b"\r");
        tell(rt, program);
        tell(rt, b": ");
        let _ = rt.stderr().print(count);
        tell(rt, b" ");
        tell(rt, counted);
    }
}

// Wipes that line.
pub fn wipe_progress(rt: HostRuntime) {
    if rt.stderr().is_terminal() {
        tell(rt, b"\r                                        \r");
    }
}
