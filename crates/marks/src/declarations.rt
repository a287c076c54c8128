// What is checked and by what: a text that was read, the declarations of a sheet, and the declaration and marks of a predicate.
ghost use Rattle.std.specs.Prelude.{◌≡◌, true, [], ◌+◌, ◌≤◌, ◌<◌, length, is_some};
ghost use Rattle.std.proofs.Math.Option.{none};
ghost use Rattle.syntax.specs.Reading.{first_repeat};
ghost use Rattle.syntax.specs.Tokens.{spelling};
ghost use Rattle.syntax.specs.Terms.{arity, same_predicate};
ghost use Rattle.syntax.specs.Words.{marks_number};
ghost use Rattle.mode_rules.specs.Modes.{marks_for, undeclared_atom};
ghost use Rattle.marks.specs.Tables.{DeclarationsAt, NamedAt};
ghost use Rattle.marks.specs.Decoded.{DeclarationsAt-prop};
ghost use Rattle.words.specs.Tables.{entry_from};
ghost use Rattle.mode_rules.specs.Written.{is_exempt};
ghost use Rattle.marks.specs.Repeating.{nth_declaration};
ghost use Rattle.marks.specs.Answers.{checked_of, atom_name, position};

use crate::lookup::{is_match, look_among};
use syntax::{DECLARATION_SIZE, Entry, Refusal};
use words::packing::{arity_of, length_of};
use words::tables::{entry_at, word_at};

// Where the marks stand among the words of a declaration: they are the last.
const MARKS_WORD: usize = DECLARATION_SIZE - 1;

// The predicate of a trace's facts.
const SEEN: [u8; 4] = *b"seen";

/// The number of arguments of `seen`, the predicate of a trace's facts.
pub const SEEN_ARGUMENTS: usize = 3;

/// The bytes of a name in the text that it is of.
#[tactic(auto, using(crate::proofs::Marking::part_is))]
pub fn name_bytes(text: &[u8], name: Entry) -> &[u8]
    requires { name.at + name.len ≤ length text.now }
    ensures { result.now ≡ spelling text.now name.at name.len }
{
    &text[name.at..name.at + name.len]
}

/// The name of the atom at place `p` of a table, and how many arguments it has.
pub fn name_at(table: &[u32], p: usize) -> Entry
    requires { NamedAt table.now p }
    ensures { (w : NamedAt table.now p) → result ≡ atom_name w.atom }
{
    let what = word_at(table, p);
    let at = word_at(table, p + 2);
    Entry {
        at,
        len: length_of(what),
        arguments: arity_of(what),
    }
}

/// A text, and the table of the words that it was read into.
#[derive(Clone, Copy)]
pub struct ReadText<'a> {
    pub text: &'a [u8],
    pub table: &'a [u32],
}

/// The declarations of a sheet as they were read: the sheet's text, the whole lent table of their words, and how many there are. With a smaller count
/// they are the first ones.
#[derive(Clone, Copy)]
pub struct Declarations<'a> {
    pub text: &'a [u8],
    pub words: &'a [u32],
    pub count: usize,
    // The words are those of as many declarations of the text. Text and words tell which, so the fact has one proof at most.
    pub ghost stands: { DeclarationsAt text.now words.now count } by { DeclarationsAt-prop text.now words.now count },
}

impl<'a> Declarations<'a> {
    ghost use Rattle.marks.specs.InTables.{DeclarationsIn, AtomIn};
    ghost use Rattle.marks.specs.Flags.{OnlyDeclaration};

    /// The name of declaration `i`, from 0 on, and how many marks it has.
    pub fn name_of(self, i: usize) -> Entry
        requires { i < self.count }
        ensures { result ≡ entry_from self.entry.words.now i }
    {
        entry_at(self.words, i)
    }

    /// The number, from 0 on, of the first declaration of the predicate of a name and a number of arguments; none where it is not declared.
    pub fn find(self, name: &[u8], arguments: usize) -> Option<usize>
        ensures { (w : DeclarationsIn self.entry) → result ≡ position w.list name.now arguments }
    {
        look_among(self.text, self.words, self.count, name, arguments).place
    }

    /// The number of the first declaration of the predicate of the atom at place `p`; none where it is not declared.
    pub fn find_atom(self, read: ReadText<'_>, p: usize) -> Option<usize>
        requires { AtomIn read p }
        ensures { (d : DeclarationsIn self.entry) (w : AtomIn read.entry p) → result
            ≡ position d.list w.atom.name (arity w.atom.args) }
    {
        let name = name_at(read.table, p);
        self.find(name_bytes(read.text, name), name.arguments)
    }

    /// Whether declaration `i`, which may be any number, is one of the predicate of a name and a number of arguments.
    pub fn declares(self, i: usize, name: &[u8], arguments: usize) -> bool
        ensures declared { result ≡ true → (d : DeclarationsIn self.entry) → (i < self.entry.count)
            × (same_predicate (nth_declaration d.list i).name (length (nth_declaration d.list i).marks) name.now arguments
            ≡ true) }
        ensures found { result ≡ true → (d : DeclarationsIn self.entry)
            → is_some (position d.list name.now arguments) ≡ true }
    {
        if self.count <= i {
            return false;
        }
        let q = DECLARATION_SIZE * i;
        is_match(self.text, self.words, q, name, arguments)
    }

    /// The number of the declaration of the predicate of the atom at place `p`; none where it has none. Declaration `near` is tried first: clauses of a
    /// predicate stand together.
    pub fn find_near(self, read: ReadText<'_>, p: usize, near: usize) -> Option<usize>
        requires { AtomIn read p }
        ensures { (d : DeclarationsIn self.entry) (w : AtomIn read.entry p) → first_repeat [] d.list ≡ none
            → OnlyDeclaration d.list w.atom result }
    {
        let name = name_at(read.table, p);
        let bytes = name_bytes(read.text, name);
        if self.declares(near, bytes, name.arguments) {
            return Some(near);
        }
        self.find(bytes, name.arguments)
    }

    /// Whether declaration `i` is `seen` with three arguments, the predicate of a trace's facts, which needs no clause.
    pub fn is_seen(self, i: usize) -> bool
        requires { i < self.count }
        ensures { (d : DeclarationsIn self.entry) → result ≡ is_exempt (nth_declaration d.list i) }
    {
        let name = self.name_of(i);
        name.arguments == SEEN_ARGUMENTS && name_bytes(self.text, name) == &SEEN[..]
    }

    /// The marks of the predicate of the atom at place `p`, in one number: 0 where it has no arguments, and where it is not declared, which by the rules is
    /// a predicate without marks.
    pub fn marks_of(self, read: ReadText<'_>, p: usize) -> usize
        requires { AtomIn read p }
        ensures { (d : DeclarationsIn self.entry) (w : AtomIn read.entry p) → result ≡ marks_number (marks_for d.list w.atom) }
    {
        match self.find_atom(read, p) {
            Some(i) => word_at(self.words, i * DECLARATION_SIZE + MARKS_WORD),
            None => 0,
        }
    }
}

/// What the literals of a clause, or of a goal, are checked by: the declarations of the sheet, where the literals were read, and the number of the
/// clause, 0 for a goal.
#[derive(Clone, Copy)]
pub struct ClauseCheck<'a> {
    pub declarations: Declarations<'a>,
    pub read: ReadText<'a>,
    pub clause: usize,
}

impl<'a> ClauseCheck<'a> {
    ghost use Rattle.marks.specs.InTables.{DeclarationsIn, AtomIn};

    /// Refusal 8 of the head or call at place `p`, literal number `literal`, where it has no declaration; declaration `near` is tried first.
    pub fn undeclared_atom(self, p: usize, literal: usize, near: usize) -> Result<(), Refusal>
        requires { AtomIn self.read p }
        ensures { (d : DeclarationsIn self.entry.declarations) (w : AtomIn self.entry.read p) → result
            ≡ checked_of (undeclared_atom d.list self.entry.clause literal w.atom) }
    {
        let name = name_at(self.read.table, p);
        let bytes = name_bytes(self.read.text, name);
        if self.declarations.declares(near, bytes, name.arguments) {
            return Ok(());
        }
        if self.declarations.find(bytes, name.arguments).is_some() {
            return Ok(());
        }
        Err(Refusal::Undeclared {
            clause: self.clause,
            literal,
            at: name.at,
            len: name.len,
        })
    }
}
