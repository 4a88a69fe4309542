// The text of a replayed step, one step a text line:
//
//   OP LV PC A X Y S P CYCLES | BB@AAAA .. | AN LV PC A X Y S P CYCLES | BB@AAAA ..
//
// the opcode and the state before, the bytes of memory before, the answer and the state after, and the bytes that the step
// stored. Numbers are in capital hexadecimal, the cycles in decimal; a byte that has no cell in the first list is 00. Of the
// levels, LV, bit 0 is set if NMI is low, bit 1 if IRQ is, and bit 2 if NMI was low at the last step that was made.
#![tactic(auto)]

ghost use Rattle.std.specs.Prelude.{◌≡◌, ◌<◌, length, set};
ghost use Rattle.text_reading.specs.Found.{found, place_found};
ghost use Rattle.replay_list.specs.Inner.Cells.{cell_found};
ghost use Rattle.replay_list.specs.Lines.{spaced_byte_at, state_at, state_found, cell_at, loaded_from, most_cells, bar_at, line_after};

use text_reading::{Reading, read_byte, read_count, read_mark, read_word, rest};

// A state as a text line has it, and where the text goes on. Its number is the opcode before a step, and the answer after it; the
// status is as PHP pushes it.
#[derive(Clone, Copy)]
pub struct State {
    pub number: u8,
    pub levels: u8,
    pub counter: u16,
    pub accumulator: u8,
    pub x: u8,
    pub y: u8,
    pub stack: u8,
    pub status: u8,
    pub cycles: u64,
    pub next: usize,
}

// A cell of a list, a byte with its address, and where the text goes on.
#[derive(Clone, Copy)]
struct Cell {
    byte: u8,
    address: u16,
    next: usize,
}

// A space and a byte. As `read_field` of trace_line: each promises the definition of its own format.
fn read_spaced_byte(text: &[u8], at: usize) -> Option<Reading<u8>>
    ensures { result ≡ found (spaced_byte_at text.now at) }
{
    read_byte(text, read_mark(text, at, b' ')?)
}

// The state at a place of a text line.
pub fn read_state(text: &[u8], at: usize) -> Option<State>
    ensures { result ≡ state_found (state_at text.now at) }
{
    let number = read_byte(text, at)?;
    let levels = read_spaced_byte(text, number.next)?;
    let counter = read_word(text, read_mark(text, levels.next, b' ')?)?;
    let accumulator = read_spaced_byte(text, counter.next)?;
    let x = read_spaced_byte(text, accumulator.next)?;
    let y = read_spaced_byte(text, x.next)?;
    let stack = read_spaced_byte(text, y.next)?;
    let status = read_spaced_byte(text, stack.next)?;
    let cycles = read_count(text, read_mark(text, status.next, b' ')?)?;
    Some(State {
        number: number.value,
        levels: levels.value,
        counter: counter.value,
        accumulator: accumulator.value,
        x: x.value,
        y: y.value,
        stack: stack.value,
        status: status.value,
        cycles: cycles.value,
        next: cycles.next,
    })
}

fn read_cell(text: &[u8], at: usize) -> Option<Cell>
    ensures { result ≡ cell_found (cell_at text.now at) }
{
    let byte = read_spaced_byte(text, at)?;
    let address = read_word(text, read_mark(text, byte.next, b'@')?)?;
    Some(Cell {
        byte: byte.value,
        address: address.value,
        next: address.next,
    })
}

// A store past the end does nothing.
fn store(memory: &mut [u8], address: u16, byte: u8)
    ensures { memory.new ≡ set memory.old address byte }
{
    let index = address as usize;
    if index < memory.len() {
        memory[index] = byte;
    }
}

// Stores the cells of a list, and answers where it ends: at the first thing that is no cell. A list has no more than 64
// of them. The memory is a slice, and no `Memory`: the clause promises the list for every length.
pub fn load_bytes(text: &[u8], at: usize, memory: &mut [u8]) -> usize
    ensures { loaded_from most_cells text.now at memory.old ≡ (result, memory.new) }
{
    let mut next = at;
    for _ in 0..64u64 {
        let Some(cell) = read_cell(text, next) else {
            break;
        };
        store(memory, cell.address, cell.byte);
        next = cell.next;
    }
    next
}

// The bar before a list of bytes, after a space.
pub fn read_bar(text: &[u8], at: usize) -> Option<usize>
    ensures { result ≡ place_found (bar_at text.now at) }
{
    read_mark(text, read_mark(text, at, b' ')?, b'|')
}

// The place after the line in which `at` stands.
pub fn next_line(text: &[u8], at: usize) -> usize
    ensures value { result ≡ line_after text.now at }
    ensures lower_bound { at < length text.now → at < result }
{
    match rest(text, at)
        .iter()
        .position(|&character| character == b'\n')
    {
        Some(index) => at + index + 1,
        None => at.max(text.len()),
    }
}
