// The listing, for a host in C or Rust: see host/include/mos6502_listing.h.
#![tactic(auto)]

ghost use Rattle.std.specs.Prelude.{◌≡◌};
ghost use Rattle.listing.specs.Listing.{listing_into};

use text_writing::numbers_of;

// Lists the memory from a first to a last address.
#[unsafe(no_mangle)]
pub extern "C" fn mos6502_list(
    memory: &[u8],
    first: u16,
    last: u16,
    text: &mut [u8],
    size: &mut usize,
) -> u8
    ensures { record { answer = result; size = size.new; buffer = text.new }
        ≡ listing_into memory.now first last text.old }
{
    let (answer, length) = numbers_of(listing::list(memory, first, last, text));
    *size = length;
    answer
}

// The version of these functions. A host asks for it by this name, so that an older archive does not link, and the linker says
// what to do. It changes, in the name too, with any change that a host would have to follow.
#[unsafe(no_mangle)]
pub extern "C" fn mos6502_listing_version_1_run_rt_staticlib_mos6502_listing() -> u8
    ensures { result ≡ 1 }
{
    1
}
