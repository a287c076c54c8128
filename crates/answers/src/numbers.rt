// The numbers of unbound variables, `_1`, `_2` and on. They stand in the marks of the search for a cycle, which are all 0 while none goes on. The cells that
// have one are listed behind the marks, so that these alone are set back to 0.
ghost use Rattle.std.specs.Prelude.{List, ◌∷◌, ◌+◌, ◌≤◌, ◌<◌};
ghost use Rattle.syntax.specs.Limits.{word_bytes};
ghost use Rattle.run_layout.specs.Regions.{cells};
ghost use Rattle.machine.specs.Substitution.{Variable};
ghost use Rattle.machine.specs.Answers.{Piece, unbound, bytes_of};
ghost use Rattle.run_layout.specs.State.{variable_of};
ghost use Rattle.run_layout.specs.Rooms.{Clean};
ghost use Rattle.answers.specs.Words.{Numbers};
ghost use Rattle.answers.specs.Telling.{Counting, SomeNumbers, VariableNumbered, SpeltSoFar, written};

use run_layout::{STORE_WORDS, TRAIL};
use words::buffers::{append_byte, append_decimal};
use words::tables::word_at;

// Where the cells that have a number are listed, in the order of their numbers. There is room for every cell.
const NUMBER_LIST: usize = TRAIL;

/// The word that counts the cells listed, behind the list. It is that of the first pending cell, and none is pending while an answer is told.
pub const COUNT_WORD: usize = STORE_WORDS;

/// The number of an unbound cell in an answer line, from 1 on: the one it has, or one more than all so far. The cell's mark is its number, 0 for none.
pub fn number_of(numbers: &mut [u32], x: usize) -> usize
    requires { (x < cells) × SomeNumbers numbers.old }
    ensures { (met : List Variable) → Numbers numbers.old met → VariableNumbered met x numbers.new result }
{
    let known = word_at(numbers, x);
    if known != 0 {
        return known;
    }
    let count = word_at(numbers, COUNT_WORD);
    let number = count + 1;
    numbers[NUMBER_LIST + count] = x as u32;
    numbers[x] = number as u32;
    numbers[COUNT_WORD] = number as u32;
    number
}

/// Sets the marks of the cells that have a number back to 0.
pub fn unmark(numbers: &mut [u32])
    requires { SomeNumbers numbers.old }
    ensures { Clean numbers.new }
{
    let count = word_at(numbers, COUNT_WORD);
    for j in 0..count {
        let x = word_at(numbers, NUMBER_LIST + j);
        numbers[x] = 0;
    }
}

/// Appends the unbound variable of cell x, as `_1`, and gives the position past it.
pub fn append_unbound(numbers: &mut [u32], x: usize, out: &mut [u8], at: usize) -> usize
    requires { (x < cells) × Counting numbers.old at }
    ensures told { (met : List Variable) → Numbers numbers.old met → (ps : List Piece)
        → SpeltSoFar (bytes_of met (unbound (variable_of x) ∷ ps)) (written numbers.old out.old at) (written numbers.new out.new result) ps }
    ensures near { (at ≤ result) × (result ≤ at + word_bytes) }
{
    let past = append_byte(b'_', out, at);
    let number = number_of(numbers, x);
    append_decimal(number, out, past)
}
