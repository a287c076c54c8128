// The tables of a run: where each region begins and how many records of how many words it has (specs/Regions), and the packing of words. What the words
// mean is defined in specs/. The tables are arrays of 32-bit words on the native stack, since a run allocates nothing (include/pilvaust.h). A link is the
// place of a record, and 0 stands for none. docs/ARCHITECTURE.md, "The tables", has all regions in one table.

#![tactic(auto)]

pub mod rooms;
pub mod symbols;
pub mod terms;

ghost use Rattle.std.specs.Prelude.{◌≡◌, ◌<◌, ◌^◌};
ghost use Rattle.run_layout.specs.Regions.{copies, copy_cells, half_word};
ghost use Rattle.run_layout.specs.Halves.{half, stored};
ghost use Rattle.run_layout.specs.Symbols.{symbol_word, symbol_place, symbol_text};
ghost use Rattle.run_layout.specs.State.{cell_of, variable_of};

use syntax::{
    BRACKETS, CLAUSES, FACTS, FIRST_NAME, GOAL_WORDS, LENGTHS, LITERALS, LONGEST_PATH, NODE_WORDS,
    PROGRAM_CLAUSES, PROGRAM_WORDS,
};

/// The most copies on a path: the goal is copy 0, and each clause that is tried on the path makes one more.
pub const COPIES: usize = LONGEST_PATH + 1;

/// The cells of a copy: one for each number that a variable can have.
pub const COPY_CELLS: usize = FIRST_NAME;

/// The words of a loaded node without its arguments.
pub const LOADED_NODE: usize = 2;

/// The most loaded nodes of a program and a goal, and so the most symbols.
pub const MOST_NODES: usize = (PROGRAM_WORDS + GOAL_WORDS) / NODE_WORDS + 1;

/// The words of the node table, and as many of the symbols' table.
pub const NODES_WORDS: usize = MOST_NODES * LOADED_NODE;

/// The words of a clause's record in the code.
pub const CLAUSE_SIZE: usize = 4;

/// The words of a record of a body.
pub const LITERAL_SIZE: usize = 4;

/// The kind of the record at a body's end. A record's kind is a word of the code, so it is a number; a plain literal has its kind of `syntax`.
pub const END_KIND: usize = 4;

/// The kind of a bracket's first record, where its two sides part.
pub const SPLIT_KIND: usize = 5;

/// The kind of the record at the end of a side, from which the run goes on behind the bracket.
pub const JUMP_KIND: usize = 6;

/// The most records of a body before its end: one for each literal, and three for each bracket, of which there are fewer than literals.
pub const MOST_ITEMS: usize = 4 * LITERALS - 3;

/// Where the bodies begin in the code, the goal's first.
pub const BODIES: usize = (PROGRAM_CLAUSES + 1) * CLAUSE_SIZE;

/// Where the bodies of the clauses begin, behind room for the longest goal.
pub const CLAUSE_BODIES: usize = BODIES + (MOST_ITEMS + 1) * LITERAL_SIZE;

/// The words of the code.
pub const CODE_WORDS: usize = BODIES + ((CLAUSES + 1) * (MOST_ITEMS + 1) + FACTS) * LITERAL_SIZE;

/// The number of cells. They stand at the beginning of the state.
pub const CELLS: usize = COPIES * COPY_CELLS;

/// Where the trail begins; it has room for every cell.
pub const TRAIL: usize = CELLS;

/// The words of cells and trail, with which both state and scratch begin.
pub const STORE_WORDS: usize = TRAIL + CELLS;

/// Where the frames of copies begin in the state.
pub const FRAMES: usize = STORE_WORDS;

/// The words of a frame.
pub const FRAME_SIZE: usize = 4;

/// Where the pile of alternatives begins in the state, the lowest first.
pub const ALTERNATIVES: usize = FRAMES + COPIES * FRAME_SIZE;

/// The words of an alternative.
pub const ALTERNATIVE_SIZE: usize = 6;

/// The most alternatives on the pile: a copy adds at most its body's literals to those that can wait.
pub const MOST_ALTERNATIVES: usize = LITERALS * COPIES;

/// The words of the state.
pub const STATE_WORDS: usize = ALTERNATIVES + MOST_ALTERNATIVES * ALTERNATIVE_SIZE;

/// Where the cells begin whose bindings may close a cycle, in the scratch words.
pub const PENDING: usize = STORE_WORDS;

/// Where the work stack of unification begins, and the open brackets of an answer that is spelt.
pub const STACK: usize = PENDING + CELLS;

/// The words of one side of a pair on the work stack.
pub const SIDE_SIZE: usize = 3;

/// The words of a pair on the work stack.
pub const PAIR_SIZE: usize = 2 * SIDE_SIZE;

/// A pair of large terms with a name each is opened on a stack lower than this.
pub const BIG_PAIRS: usize = 1024;

/// The most pairs on the work stack.
pub const PAIRS: usize = 2 * CELLS + BIG_PAIRS;

/// Where the short cuts through chains of variables begin.
pub const CUT_LIST: usize = STACK + PAIRS * PAIR_SIZE;

/// The most short cuts: one from each cell.
pub const CUT_COUNT: usize = CELLS;

/// The word with the number of short cuts.
pub const CUTS_WORD: usize = CUT_LIST + CUT_COUNT;

/// The word with the number of classes of equal terms. The memo of unification begins with it.
pub const MEMO: usize = CUTS_WORD + 1;

/// The word with the number of rows of the memo.
pub const ROWS_WORD: usize = MEMO + 1;

/// Where the slots begin: in its lower half a slot has the number of a row of the memo, in its higher half that of a short cut.
pub const SLOTS: usize = ROWS_WORD + 1;

/// The number of slots.
pub const SLOT_COUNT: usize = 16384;

/// Where the keys of the memo's rows begin, one word a row: the node whose copies the row is for.
pub const KEYS: usize = SLOTS + SLOT_COUNT;

/// The most rows of the memo that have a key, however long the scratch words are.
pub const KEY_COUNT: usize = 4096;

/// Where the classes of equal terms begin.
pub const CLASSES: usize = KEYS + KEY_COUNT;

/// The words of a class.
pub const CLASS_SIZE: usize = 2;

/// The most classes of equal terms.
pub const CLASS_COUNT: usize = CELLS + COPIES;

/// Where the path of a search for a cycle begins: it stands in the words of the classes.
pub const PATH: usize = CLASSES;

/// The words of an open cell on that path.
pub const PATH_SIZE: usize = CLASS_SIZE;

/// Where the weights of the pairs on the work stack begin, one word for each height.
pub const WEIGHTS: usize = CLASSES + CLASS_COUNT * CLASS_SIZE;

/// The number of heights that the work stack can have, 0 among them.
pub const HEIGHTS: usize = PAIRS + 1;

/// Where the rows of the memo begin. They take what is left of the scratch words.
pub const ROWS: usize = WEIGHTS + HEIGHTS;

/// The words of a row: half a word for each copy.
pub const ROW_WORDS: usize = COPIES / 2;

/// The numbers that half a word can hold are below this one.
pub const HALF_WORD: usize = 65536;

/// The most brackets that an answer's value can have open at once: those of every bound term and of the goal's, one inside the other.
pub const DEEPEST: usize = (CELLS + 1) * BRACKETS;

/// The words for one open bracket of a value that is spelt. They stand in scratch from `STACK` on.
pub const OPEN_SIZE: usize = 2;

/// The most bytes of a short sheet: with a short text too, less scratch is cleared.
pub const SHORT_SHEET: usize = 2048;

/// The most bytes of a short text, the lent one into which answers are written.
pub const SHORT_TEXT: usize = 131072;

/// The rows of the memo that a run has under a short sheet with a short text.
pub const NARROW_ROWS: usize = 208;

/// The scratch words of a run under a short sheet with a short text, and of a test for at most one answer.
pub const NARROW_WORDS: usize = ROWS + NARROW_ROWS * ROW_WORDS;

/// The rows of the memo that any other run has.
pub const WIDE_ROWS: usize = 3072;

/// The scratch words of any other run: with the rows there is room for the open brackets of every answer.
pub const WIDE_WORDS: usize = ROWS + WIDE_ROWS * ROW_WORDS;

// The texts that a name can stand in.
const TEXTS: usize = 2;

// Room for a text and a length behind a place.
const SYMBOL_PLACES: usize = TEXTS * LENGTHS;

/// A symbol's word (specs/Symbols): the place of its name, the text, 0 for the sheet and 1 for the goal, and its length in bytes, which
/// `words::packing::span_length` reads. The text is a number, since it is a part of a word; elsewhere it is `load::node_words::Source`, or the text
/// itself (`symbols::text_of`).
pub fn pack_symbol(place: usize, text: usize, len: usize) -> u32
    requires { symbol_word place text len < 2 ^ 32 }
    ensures { result ≡ symbol_word place text len }
{
    let w = place * SYMBOL_PLACES + text * LENGTHS + len;
    w as u32
}

/// The place of a symbol's name, its first byte in the text.
pub fn symbol_place(word: u32) -> usize
    ensures { result ≡ symbol_place word }
{
    let w = word as usize;
    w / SYMBOL_PLACES
}

/// The text of a symbol's name: 0 for the sheet, 1 for the goal.
pub fn symbol_text(word: u32) -> usize
    ensures { result ≡ symbol_text word }
{
    let w = word as usize;
    w / LENGTHS % TEXTS
}

/// The cell of a copy's variable (specs/State).
pub fn cell_of(copy: usize, number: usize) -> usize
    requires { (copy < copies) × (number < copy_cells) }
    ensures { result ≡ cell_of copy number }
{
    copy * COPY_CELLS + number
}

/// The copy to whose variable a cell belongs.
pub fn cell_copy(cell: usize) -> usize
    ensures { result ≡ (variable_of cell).copy }
{
    cell / COPY_CELLS
}

/// Half of a word (specs/Halves): the lower where h is 0, else the higher. The half is a number, since rows of halves are counted through
/// (`bindings::memos`).
pub fn half_of(h: usize, w: usize) -> usize
    ensures { result ≡ half h w }
{
    if h == 0 {
        return w % HALF_WORD;
    }
    w / HALF_WORD % HALF_WORD
}

/// The word w with the number i in half h; the other half stays.
pub fn with_half(h: usize, w: usize, i: usize) -> u32
    requires { i < half_word }
    ensures { result ≡ stored h w i }
{
    if h == 0 {
        let low = w / HALF_WORD % HALF_WORD * HALF_WORD + i;
        return low as u32;
    }
    let high = i * HALF_WORD + w % HALF_WORD;
    high as u32
}
