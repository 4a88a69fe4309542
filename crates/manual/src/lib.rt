// The values that the definition in specs/ and the code above it share, and how they are made. The definition itself is no code.
#![tactic(auto)]

ghost use Rattle.std.specs.Prelude.{◌≡◌};
ghost use Rattle.manual.specs.Outcomes.{leaves_at, leaves, machine_of, number, is_made, stepped, ended};
ghost use Rattle.manual.specs.Interrupts.{idle, due};

use laws::answers::*;
use registers::Registers;

// The length of a whole memory, the highest cycle count from which a step is made, and the highest bound of a run.
pub const FULL_MEMORY: usize = 65536;

pub const HIGHEST_COUNT: u64 = 18446744073709551608;

pub const HIGHEST_BOUND: u64 = 1000000;

// Where NMI leads, and where IRQ and BRK do.
pub const NMI_VECTOR: u16 = 0xFFFA;

pub const IRQ_VECTOR: u16 = 0xFFFE;

// The cycles of a line that is served.
pub const SERVING_CYCLES: u64 = 7;

// What a step changes besides memory: the registers, the cycle count, and the last level of NMI, true if it was high.
#[derive(Clone, Copy, PartialEq, Eq)]
pub struct Machine {
    pub registers: Registers,
    pub cycles: u64,
    pub nmi: bool,
}

// The present levels of the interrupt lines, true if one is high. They hold for a whole step or run.
#[derive(Clone, Copy, PartialEq, Eq)]
pub struct Lines {
    pub irq: bool,
    pub nmi: bool,
}

// Where an addressing mode leads; whether that is another page than the one it was counted from, the page of an indexed
// base, or of the counter past a branch; and the first address on the bus, before a carry reaches the high byte.
#[derive(Clone, Copy, PartialEq, Eq)]
pub struct Target {
    pub address: u16,
    pub crossed: bool,
    pub first: u16,
}

// What ADC and SBC give, as in lib.rs; N and Z are those of the result.
#[derive(Clone, Copy, PartialEq, Eq)]
pub struct ArithmeticOutput {
    pub result: u8,
    pub carry: bool,
    pub overflow: bool,
}

// One decimal digit of a sum or difference, and whether it carries into the next one or borrows from it.
#[derive(Clone, Copy, PartialEq, Eq)]
pub struct Digit {
    pub value: u8,
    pub over: bool,
}

// What an instruction leaves: the registers, the cycles beyond its base, and its first address on the bus.
#[derive(Clone, Copy, PartialEq, Eq)]
pub struct Effect {
    pub registers: Registers,
    pub extra: u8,
    pub first: u16,
}

// Why a step or a run ended: every step that was asked for was made, or the refusal that stopped it.
#[derive(Clone, Copy, PartialEq, Eq)]
pub enum Reason {
    Made,
    MemoryNotFull,
    NoCycleRoom,
    NotAnOpcode,
    BoundTooHigh,
}

// What a step answers, its first address on the bus, and the machine that it leaves: in a refusal 0000, and the one
// that was given.
#[derive(Clone, Copy, PartialEq, Eq)]
pub struct Stepped {
    pub reason: Reason,
    pub first: u16,
    pub machine: Machine,
}

// What a run answers, the steps that it made, and the machine after them.
#[derive(Clone, Copy, PartialEq, Eq)]
pub struct Ended {
    pub reason: Reason,
    pub steps: u64,
    pub machine: Machine,
}

// What an instruction leaves that has a first address.
pub fn leaves_at(first: u16, registers: Registers, extra: u8) -> Effect
    ensures { result ≡ leaves_at first registers extra }
{
    Effect {
        registers,
        extra,
        first,
    }
}

// What an instruction leaves that has no address.
pub fn leaves(registers: Registers, extra: u8) -> Effect
    ensures { result ≡ leaves registers extra }
{
    leaves_at(0, registers, extra)
}

impl Machine {
    // The machine from its parts.
    pub fn new(registers: Registers, cycles: u64, nmi: bool) -> Machine
        ensures { result ≡ machine_of registers cycles nmi }
    {
        Machine {
            registers,
            cycles,
            nmi,
        }
    }
}

impl Lines {
    // No line is low.
    pub fn idle() -> Lines
        ensures { result ≡ idle }
    {
        Lines {
            irq: true,
            nmi: true,
        }
    }
    // The vector of the line that is due before an opcode, if one is. Idle lines come first, since nothing else need be looked at then.
    pub fn due(self, machine: Machine) -> Option<u16>
        ensures { result ≡ due self machine }
    {
        if self.nmi && self.irq {
            return None;
        }
        if machine.nmi && !self.nmi {
            return Some(NMI_VECTOR);
        }
        if !self.irq && !machine.registers.status.disable {
            return Some(IRQ_VECTOR);
        }
        None
    }
}

impl Stepped {
    // A step's answer from its parts.
    pub fn new(reason: Reason, first: u16, machine: Machine) -> Stepped
        ensures { result ≡ stepped reason first machine }
    {
        Stepped {
            reason,
            first,
            machine,
        }
    }
}

impl Ended {
    // A run's answer from its parts.
    pub fn new(reason: Reason, steps: u64, machine: Machine) -> Ended
        ensures { result ≡ ended reason steps machine }
    {
        Ended {
            reason,
            steps,
            machine,
        }
    }
}

impl Reason {
    // Whether every step that was asked for was made.
    pub fn is_made(self) -> bool
        ensures { result ≡ is_made self }
    {
        matches!(self, Reason::Made)
    }
}

impl From<Reason> for u8 {
    ghost from_gives = { λ reason answer. answer ≡ number reason };

    // Its answer number.
    fn from(reason: Reason) -> u8 {
        match reason {
            Reason::Made => NOT_REFUSED,
            Reason::MemoryNotFull => MEMORY_NOT_FULL,
            Reason::NoCycleRoom => NO_CYCLE_ROOM,
            Reason::NotAnOpcode => NOT_AN_OPCODE,
            Reason::BoundTooHigh => BOUND_TOO_HIGH,
        }
    }
}
