// A machine as text: the last seven fields of the report's line.
#![tactic(auto)]

ghost use Rattle.text_writing.specs.Written.{Writes};
ghost use Rattle.trace_fields.specs.Fields.{register_fields, machine_fields};

use manual::Machine;
use registers::Registers;
use text_writing::Writer;

fn put_registers(out: &mut Writer, registers: Registers)
    ensures { Writes out.old (register_fields registers) out.new }
{
    out.put_spaced_hex2(registers.accumulator);
    out.put_spaced_hex2(registers.x);
    out.put_spaced_hex2(registers.y);
    out.put_spaced_hex2(registers.stack.0);
    out.put_spaced_hex2(registers.status.pushed());
}

// Writes the cycles, the counter and the registers.
pub fn put_machine(out: &mut Writer, machine: Machine)
    ensures { Writes out.old (machine_fields machine) out.new }
{
    let registers = machine.registers;
    out.put_decimal(machine.cycles);
    out.put_spaced_hex4(registers.counter);
    put_registers(out, registers);
}
