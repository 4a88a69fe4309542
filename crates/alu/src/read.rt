// What the operations that read a byte do with it.
ghost use Rattle.std.specs.Prelude.{◌≡◌};
ghost use Rattle.manual.specs.Instructions.{sum, difference, with_output, applied};

use crate::flags::{
    bit_test, compare, load_accumulator, load_x_register, load_y_register, set_carry, set_overflow,
};
use arithmetic::{adc_binary, adc_decimal, sbc_binary, sbc_decimal};
use instruction::ReadOperation;
use manual::ArithmeticOutput;
use registers::Registers;

// The registers after ADC or SBC: N and Z are those of the result.
fn with_output(registers: Registers, output: ArithmeticOutput) -> Registers
    ensures { result ≡ with_output output registers }
{
    let carried = set_carry(registers, output.carry);
    load_accumulator(set_overflow(carried, output.overflow), output.result)
}

// What ADC gives, decimal if D is set.
#[tactic(auto, unfolding(manual::specs::Instructions::sum))]
fn sum(value: u8, registers: Registers) -> ArithmeticOutput
    ensures { result ≡ sum value registers }
{
    let carry = registers.status.carry;
    if registers.status.decimal {
        adc_decimal(registers.accumulator, value, carry)
    } else {
        adc_binary(registers.accumulator, value, carry)
    }
}

// What SBC gives, decimal if D is set.
#[tactic(auto, unfolding(manual::specs::Instructions::difference))]
fn difference(value: u8, registers: Registers) -> ArithmeticOutput
    ensures { result ≡ difference value registers }
{
    let carry = registers.status.carry;
    if registers.status.decimal {
        sbc_decimal(registers.accumulator, value, carry)
    } else {
        sbc_binary(registers.accumulator, value, carry)
    }
}

// ADC.
pub fn add_with_carry(registers: Registers, value: u8) -> Registers
    ensures { result ≡ applied ReadOperation.ADC value registers }
{
    with_output(registers, sum(value, registers))
}

// SBC.
pub fn subtract_with_carry(registers: Registers, value: u8) -> Registers
    ensures { result ≡ applied ReadOperation.SBC value registers }
{
    with_output(registers, difference(value, registers))
}

fn and(registers: Registers, value: u8) -> Registers
    ensures { result ≡ applied ReadOperation.AND value registers }
{
    load_accumulator(registers, registers.accumulator & value)
}

fn inclusive_or(registers: Registers, value: u8) -> Registers
    ensures { result ≡ applied ReadOperation.ORA value registers }
{
    load_accumulator(registers, registers.accumulator | value)
}

fn exclusive_or(registers: Registers, value: u8) -> Registers
    ensures { result ≡ applied ReadOperation.EOR value registers }
{
    load_accumulator(registers, registers.accumulator ^ value)
}

// What an operation does with the byte that it read.
#[tactic(auto, unfolding(manual::specs::Instructions::applied))]
pub fn apply_read(operation: ReadOperation, registers: Registers, value: u8) -> Registers
    ensures { result ≡ applied operation value registers }
{
    match operation {
        ReadOperation::ADC => add_with_carry(registers, value),
        ReadOperation::AND => and(registers, value),
        ReadOperation::BIT => bit_test(registers, value),
        ReadOperation::CMP => compare(registers, registers.accumulator, value),
        ReadOperation::CPX => compare(registers, registers.x, value),
        ReadOperation::CPY => compare(registers, registers.y, value),
        ReadOperation::EOR => exclusive_or(registers, value),
        ReadOperation::LDA => load_accumulator(registers, value),
        ReadOperation::LDX => load_x_register(registers, value),
        ReadOperation::LDY => load_y_register(registers, value),
        ReadOperation::ORA => inclusive_or(registers, value),
        ReadOperation::SBC => subtract_with_carry(registers, value),
    }
}
