// The check of a recorded trace, for a host in C or Rust: see host/include/mos6502_traces.h.
#![tactic(auto)]

ghost use Rattle.std.specs.Prelude.{◌≡◌};
ghost use Rattle.trace_checking.specs.Checking.{checked_of, checked_trace};

use laws::answers::NOT_REFUSED;
use trace_checking::check_trace;

// Checks a trace against an image.
#[unsafe(no_mangle)]
pub extern "C" fn mos6502_trace_check(
    image: &[u8],
    lines: &[u8],
    copy: &mut [u8],
    line: &mut usize,
) -> u8
    ensures { (checked_of result line.new, copy.new)
        ≡ checked_trace image.now lines.now copy.old }
{
    match check_trace(image, lines, copy) {
        Ok(()) => {
            *line = 0;
            NOT_REFUSED
        }
        Err(bad) => {
            *line = bad.line;
            bad.refusal.into()
        }
    }
}

// The version of these functions. A host asks for it by this name, so that an older archive does not link, and the linker says
// what to do. It changes, in the name too, with any change that a host would have to follow.
#[unsafe(no_mangle)]
pub extern "C" fn mos6502_traces_version_1_run_rt_staticlib_mos6502_traces() -> u8
    ensures { result ≡ 1 }
{
    1
}
