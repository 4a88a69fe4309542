// The registers of the NMOS 6502, after registers.rs.
#![tactic(auto)]

ghost use Rattle.std.specs.Prelude.{◌≡◌, ◌≤◌};
ghost use Rattle.registers.specs.State.{status_of, registers_of, set_a, set_x, set_y, set_s, set_pc, set_status, set_nz, set_v, set_d, set_i, set_c, up, down};
ghost use Rattle.registers.specs.StatusByte.{bit, status_byte, pushed_byte, served_byte, pulled_status};

// The processor status: the six flags N V D I Z C.
#[derive(Clone, Copy, PartialEq, Eq)]
pub struct Status {
    pub negative: bool,
    pub overflow: bool,
    pub decimal: bool,
    pub disable: bool,
    pub zero: bool,
    pub carry: bool,
}

// The low byte of the stack's next free address; its page is 01.
#[derive(Clone, Copy, PartialEq, Eq)]
pub struct StackPointer(pub u8);

#[derive(Clone, Copy, PartialEq, Eq)]
pub struct Registers {
    pub accumulator: u8,
    pub x: u8,
    pub y: u8,
    pub stack: StackPointer,
    pub counter: u16,
    pub status: Status,
}

// A flag as the number that stands in its place in a byte.
pub fn flag(set: bool) -> u8
    ensures value { result ≡ bit set }
    ensures upper_bound { result ≤ 1 }
{
    if set { 1 } else { 0 }
}

impl Status {
    // The status from its flags, in the order of their bits.
    pub fn new(
        negative: bool,
        overflow: bool,
        decimal: bool,
        disable: bool,
        zero: bool,
        carry: bool,
    ) -> Status
        ensures { result ≡ status_of negative overflow decimal disable zero carry }
    {
        Status {
            negative,
            overflow,
            decimal,
            disable,
            zero,
            carry,
        }
    }

    // The same status. Overwriting a status that was made flag by flag has the compiler keep each flag by itself, where
    // it would pack a plain copy into one number and take it apart at every use.
    fn kept_apart(self) -> Status
        ensures { result ≡ self }
    {
        let mut after = Status::new(false, false, false, false, false, false);
        after = self;
        after
    }

    // N and Z replaced.
    pub fn with_result(self, negative: bool, zero: bool) -> Status
        ensures { result ≡ set_nz negative zero self }
    {
        let mut after = self.kept_apart();
        after.negative = negative;
        after.zero = zero;
        after
    }

    // V replaced.
    pub fn with_overflow(self, overflow: bool) -> Status
        ensures { result ≡ set_v overflow self }
    {
        let mut after = self.kept_apart();
        after.overflow = overflow;
        after
    }

    // D replaced.
    pub fn with_decimal(self, decimal: bool) -> Status
        ensures { result ≡ set_d decimal self }
    {
        let mut after = self.kept_apart();
        after.decimal = decimal;
        after
    }

    // I replaced.
    pub fn with_disable(self, disable: bool) -> Status
        ensures { result ≡ set_i disable self }
    {
        let mut after = self.kept_apart();
        after.disable = disable;
        after
    }

    // C replaced.
    pub fn with_carry(self, carry: bool) -> Status
        ensures { result ≡ set_c carry self }
    {
        let mut after = self.kept_apart();
        after.carry = carry;
        after
    }

    // The byte on the stack, with the break bit as it is given.
    fn byte(self, brk: bool) -> u8
        ensures { result ≡ status_byte brk self }
    {
        flag(self.negative) * 128
            + flag(self.overflow) * 64
            + 32
            + flag(brk) * 16
            + flag(self.decimal) * 8
            + flag(self.disable) * 4
            + flag(self.zero) * 2
            + flag(self.carry)
    }

    // The byte that PHP and BRK push.
    pub fn pushed(self) -> u8
        ensures { result ≡ pushed_byte self }
    {
        self.byte(true)
    }

    // The byte that a served line pushes.
    pub fn served(self) -> u8
        ensures { result ≡ served_byte self }
    {
        self.byte(false)
    }

    // The status that PLP and RTI take from a byte: bits 4 and 5 are dropped.
    pub fn pulled(byte: u8) -> Status
        ensures { result ≡ pulled_status byte }
    {
        Status::new(
            byte / 128 % 2 == 1,
            byte / 64 % 2 == 1,
            byte / 8 % 2 == 1,
            byte / 4 % 2 == 1,
            byte / 2 % 2 == 1,
            byte % 2 == 1,
        )
    }
}

impl StackPointer {
    // One more, modulo 256: before a pull.
    pub fn increment(self) -> StackPointer
        ensures { result.0 ≡ up self.0 }
    {
        StackPointer(self.0.wrapping_add(1))
    }

    // One less, modulo 256: after a push.
    pub fn decrement(self) -> StackPointer
        ensures { result.0 ≡ down self.0 }
    {
        StackPointer(self.0.wrapping_sub(1))
    }
}

impl Registers {
    // The registers from their parts.
    pub fn new(accumulator: u8, x: u8, y: u8, stack: u8, counter: u16, status: Status) -> Registers
        ensures { result ≡ registers_of accumulator x y stack counter status }
    {
        Registers {
            accumulator,
            x,
            y,
            stack: StackPointer(stack),
            counter,
            status,
        }
    }

    // The same registers, each kept by itself: see Status::kept_apart.
    pub fn kept_apart(self) -> Registers
        ensures { result ≡ self }
    {
        let status = Status::new(false, false, false, false, false, false);
        let mut after = Registers::new(0, 0, 0, 0, 0, status);
        after = self;
        after
    }

    // A replaced.
    pub fn with_accumulator(self, byte: u8) -> Registers
        ensures { result ≡ set_a byte self }
    {
        let mut after = self.kept_apart();
        after.accumulator = byte;
        after
    }

    // X replaced.
    pub fn with_x(self, byte: u8) -> Registers
        ensures { result ≡ set_x byte self }
    {
        let mut after = self.kept_apart();
        after.x = byte;
        after
    }

    // Y replaced.
    pub fn with_y(self, byte: u8) -> Registers
        ensures { result ≡ set_y byte self }
    {
        let mut after = self.kept_apart();
        after.y = byte;
        after
    }

    // S replaced.
    pub fn with_stack(self, stack: StackPointer) -> Registers
        ensures { result ≡ set_s stack.0 self }
    {
        let mut after = self.kept_apart();
        after.stack = stack;
        after
    }

    // The counter replaced.
    pub fn with_counter(self, address: u16) -> Registers
        ensures { result ≡ set_pc address self }
    {
        let mut after = self.kept_apart();
        after.counter = address;
        after
    }

    // The status replaced.
    pub fn with_status(self, status: Status) -> Registers
        ensures { result ≡ set_status status self }
    {
        let mut after = self.kept_apart();
        after.status = status;
        after
    }
}
