// Declarations.

ghost use Rattle.std.specs.Prelude.{◌≡◌, [], ◌+◌, ◌*◌, ◌^◌, ◌≤◌, ◌<◌, List, length};
ghost use Rattle.syntax.specs.Terms.{Mark};
ghost use Rattle.syntax.specs.Limits.{declarations as most_declarations, arguments};
ghost use Rattle.syntax.specs.Words.{declaration_size, mark_number, marks_number};
ghost use Rattle.words.specs.Buffers.{Appended};
ghost use Rattle.marks.specs.InTables.{DeclarationsIn};
ghost use Rattle.format_rules.specs.Writing.{mark_byte, marks_text, declaration_text, declarations_text};
ghost use Rattle.formatter.specs.Tables.{DeclarationIn, declaration_room};

use marks::declarations::Declarations;
use syntax::{DECLARATION_SIZE, INPUT, OUTPUT};
use words::buffers::{append_all, append_byte, append_part};
use words::packing::{first_mark, other_marks};
use words::tables::word_at;

// Where the marks stand among the words of a declaration: they are the last.
const MARKS_WORD: usize = DECLARATION_SIZE - 1;

// The byte of a mark's number.
fn mark_byte(mark: usize) -> u8
    requires { (m : Mark) × (mark ≡ mark_number m) }
    ensures { (m : Mark) → mark ≡ mark_number m → result ≡ mark_byte m }
{
    if mark == INPUT {
        return b'+';
    }
    if mark == OUTPUT {
        return b'-';
    }
    b'*'
}

// So many marks, packed into one number.
fn append_marks(marks: usize, count: usize, out: &mut [u8], at: usize) -> usize
    requires few { (count ≤ arguments) × (at < 2 ^ 63) }
    requires packed { (ms : List Mark) × (marks ≡ marks_number ms) × (count ≡ length ms) }
    ensures { (ms : List Mark) → marks ≡ marks_number ms → count ≡ length ms → Appended out.old at (marks_text ms []) out.new result }
{
    if count == 0 {
        return at;
    }
    let past_open = append_byte(b'(', out, at);
    let mut written = append_byte(mark_byte(first_mark(marks)), out, past_open);
    let mut left = other_marks(marks);
    for _ in 1..count {
        let past_comma = append_byte(b',', out, written);
        written = append_byte(mark_byte(first_mark(left)), out, past_comma);
        left = other_marks(left);
    }
    append_byte(b')', out, written)
}

// Declaration i.
fn append_declaration(declarations: Declarations<'_>, i: usize, out: &mut [u8], at: usize) -> usize
    requires stands { DeclarationIn declarations i }
    requires low { (i < declarations.count) × (at < 2 ^ 62) }
    ensures { (w : DeclarationIn declarations.entry i) → Appended out.old at (declaration_text w.declaration []) out.new result }
{
    let name = declarations.name_of(i);
    let marks = word_at(declarations.words, DECLARATION_SIZE * i + MARKS_WORD);
    let past_mode = append_all(b":- mode ", out, at);
    let past_name = append_part(declarations.text, name.at, name.len, out, past_mode);
    let past_marks = append_marks(marks, name.arguments, out, past_name);
    append_all(b".\n", out, past_marks)
}

/// All declarations, from the buffer's beginning on.
pub fn append_declarations(declarations: Declarations<'_>, out: &mut [u8]) -> usize
    requires { declarations.count ≤ most_declarations }
    ensures wrote { (d : DeclarationsIn declarations.entry) → Appended out.old 0 (declarations_text d.list []) out.new result }
    ensures few { result ≤ most_declarations * declaration_room }
{
    let mut written = 0;
    for i in 0..declarations.count {
        written = append_declaration(declarations, i, out, written);
    }
    written
}
