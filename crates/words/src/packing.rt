// Numbers packed into the words of a table, and each of them out of its word. Kinds of items and marks are numbers, as they stand in the tables that a
// caller lends.

ghost use Rattle.std.specs.Prelude.{◌≡◌, ◌≤◌, ◌<◌, ◌^◌};
ghost use Rattle.syntax.specs.Limits.{sheet_bytes};
ghost use Rattle.syntax.specs.Reading.{sign_of};
ghost use Rattle.syntax.specs.Spans.{packed, span_at, span_length};
ghost use Rattle.syntax.specs.Words.{first_name, functor, functor_arity, functor_length, marker, item_kind, side_items, with_mark, first_mark};
ghost use Rattle.syntax.specs.Words.{other_marks};
ghost use Rattle.words.specs.Signs.{number_of_sign};

use syntax::{FIRST_NAME, FREE, INPUT, ITEM_KINDS, LENGTHS, MARK_NUMBERS, OUTPUT, TokenKind};

/// A part of a text in one word: its place in bytes from 0 on, and its length (syntax/specs/Spans).
pub fn pack_span(at: usize, len: usize) -> u32
    requires { (at ≤ sheet_bytes) × (len ≤ sheet_bytes) }
    ensures { result ≡ packed at len }
{
    let w = at * LENGTHS + len;
    w as u32
}

/// The place of a part of a text, by the word that packs it.
pub fn span_at(word: u32) -> usize
    ensures { result ≡ span_at word }
{
    let w = word as usize;
    w / LENGTHS
}

/// The length of a part of a text, by the word that packs it; a symbol's word (`run_layout::pack_symbol`) ends with a length too.
pub fn span_length(word: u32) -> usize
    ensures { result ≡ span_length word }
{
    let w = word as usize;
    w % LENGTHS
}

/// The first word of a name's node: its number of arguments and its length (syntax/specs/Words).
pub fn pack_functor(arguments: usize, len: usize) -> usize
    requires { functor arguments len < 2 ^ 32 }
    ensures { result ≡ functor arguments len }
{
    FIRST_NAME + arguments * LENGTHS + len
}

/// The number of arguments of a name, by the first word of its node.
pub fn arity_of(what: usize) -> usize
    requires { first_name ≤ what }
    ensures { result ≡ functor_arity what }
{
    (what - FIRST_NAME) / LENGTHS
}

/// The length of a name, by the first word of its node.
pub fn length_of(what: usize) -> usize
    requires { first_name ≤ what }
    ensures { result ≡ functor_length what }
{
    (what - FIRST_NAME) % LENGTHS
}

/// The word before a side of a bracket: its kind, and the number of items of the side (syntax/specs/Words).
pub fn pack_marker(kind: usize, items: usize) -> usize
    requires { marker kind items < 2 ^ 32 }
    ensures { result ≡ marker kind items }
{
    kind + ITEM_KINDS * items
}

/// The kind of an item, by its first word.
pub fn kind_of_item(word: usize) -> usize
    ensures { result ≡ item_kind word }
{
    word % ITEM_KINDS
}

/// The number of items of a side of a bracket, by the word before it.
pub fn items_of_side(word: usize) -> usize
    ensures { result ≡ side_items word }
{
    word / ITEM_KINDS
}

/// The number of the mark that a token of this kind is; none where it is no mark.
pub fn mark_number(kind: TokenKind) -> Option<usize>
    ensures { result ≡ number_of_sign (sign_of kind) }
{
    match kind {
        TokenKind::Plus => Some(INPUT),
        TokenKind::Minus => Some(OUTPUT),
        TokenKind::Star => Some(FREE),
        _ => None,
    }
}

/// The marks of a list in one number, by the first one's number and that of the others (syntax/specs/Words).
pub fn pack_mark(mark: usize, others: usize) -> usize
    requires { with_mark mark others < 2 ^ 32 }
    ensures { result ≡ with_mark mark others }
{
    mark + MARK_NUMBERS * others
}

/// The first of the marks in one number, by its own number; 0 where there is none, which is no mark's number.
pub fn first_mark(marks: usize) -> usize
    ensures { result ≡ first_mark marks }
{
    marks % MARK_NUMBERS
}

/// The marks behind the first, in one number; 0 where there are none.
pub fn other_marks(marks: usize) -> usize
    ensures { result ≡ other_marks marks }
{
    marks / MARK_NUMBERS
}
