// A few addresses in order, by value: at most five, as the rules say of the bytes that a step reads.
ghost use Rattle.std.specs.Prelude.{◌≡◌};
ghost use Rattle.footprint.specs.Places.{footprint_of};

// The first `count` of the places; after them stand zeros. A count beside an array, since that is what mos6502_reads hands to C.
#[derive(Clone, Copy)]
pub struct Footprint {
    pub count: usize,
    pub places: [u16; 5],
}

impl Footprint {
    // The first five of some addresses.
    pub fn of<const N: usize>(listed: [u16; N]) -> Footprint
        ensures { result ≡ footprint_of listed.entry }
    {
        let count = N.min(5);
        let mut places = [0; 5];
        places[..count].copy_from_slice(&listed[..count]);
        Footprint { count, places }
    }
}
