// The constants and declared types that cross crates. Comments, here and in every crate, cite docs/RULES.md and docs/REQUESTS.md as RULES and REQUESTS.

#![tactic(auto)]

// The limits of RULES, "How a sheet is spelt" and "The ten numbers, and four more" (specs/Limits).

/// The most bytes of a sheet.
pub const SHEET_BYTES: usize = 16384;

/// The most bytes of a goal.
pub const GOAL_BYTES: usize = 1024;

/// The most bytes of a name, a variable or a numeral.
pub const WORD_BYTES: usize = 31;

/// How many lengths there are, 0 to `WORD_BYTES`: a length that is packed into a word is below this.
pub const LENGTHS: usize = WORD_BYTES + 1;

/// The most brackets open at once.
pub const BRACKETS: usize = 16;

/// The most arguments or marks in a list.
pub const ARGUMENTS: usize = 8;

/// The most variables in a clause or goal.
pub const VARIABLES: usize = 64;

/// The most literals in a body or goal.
pub const LITERALS: usize = 16;

/// The most declarations in a sheet.
pub const DECLARATIONS: usize = 64;

/// The most clauses in a sheet.
pub const CLAUSES: usize = 256;

/// The most bytes of a trace (REQUESTS (ix)).
pub const TRACE_BYTES: usize = 16384;

/// The most records of kind 1 in a trace, each of which is a fact (REQUESTS (ix)).
pub const FACTS: usize = 192;

/// The longest path: a run ends before a step that would try a clause at it (RULES, "The run").
pub const LONGEST_PATH: usize = 255;

/// The most steps that a run may be allowed.
pub const MOST_STEPS: usize = 65536;

/// The most answers that a run may be asked for.
pub const MOST_ANSWERS: usize = 64;

// The words of a table (specs/Words). What is read stands in lent tables of 32-bit words, whose sizes are known before: the library allocates nothing
// (include/pilvaust.h). Kinds and marks are numbers there.

/// The first word of a node that is a name is at least this; that of a variable is the variable's number, which is below this.
pub const FIRST_NAME: usize = 64;

/// The words of a node without its arguments: what it is, how many words it takes with its arguments, and the byte of its token.
pub const NODE_WORDS: usize = 3;

/// The words of a clause before its head: how many words it takes, its number of variables, its number of items.
pub const CLAUSE_START: usize = 3;

/// The words of a declaration: byte and length of its name, number of marks, the marks in one number.
pub const DECLARATION_SIZE: usize = 4;

/// The kind of the literal `true`.
pub const TRUTH_KIND: usize = 0;

/// The kind of the literal `fail`.
pub const FALSITY_KIND: usize = 1;

/// The kind of a call, whose atom follows.
pub const CALL_KIND: usize = 2;

/// The kind of an equation, whose two terms follow.
pub const EQUATION_KIND: usize = 3;

/// The kind of the word before a bracket's left side.
pub const LEFT_KIND: usize = 4;

/// The kind of the word before a bracket's right side.
pub const RIGHT_KIND: usize = 5;

/// The kind of the word behind a bracket.
pub const BEHIND_KIND: usize = 6;

/// A kind is packed below this, with the number of items of a side above it.
pub const ITEM_KINDS: usize = 8;

/// The number of the mark +.
pub const INPUT: usize = 1;

/// The number of the mark -.
pub const OUTPUT: usize = 2;

/// The number of the mark *.
pub const FREE: usize = 3;

/// The number of a mark is packed below this, with those of the marks behind it above; 0 stands for no mark.
pub const MARK_NUMBERS: usize = 4;

/// The words of the table that a sheet is read into.
pub const SHEET_WORDS: usize = 4 * (SHEET_BYTES + 1);

/// The words of the table that a goal is read into.
pub const GOAL_WORDS: usize = 4 * (GOAL_BYTES + 1);

/// The words of the table of declarations.
pub const DECLARED_WORDS: usize = DECLARATIONS * DECLARATION_SIZE;

// A program is a sheet with the facts of a trace written behind it (REQUESTS (ix)).

/// The most bytes of a fact as it is written behind a sheet.
pub const FACT_BYTES: usize = 56;

/// The words of a fact's clause.
pub const FACT_WORDS: usize = CLAUSE_START + 4 * NODE_WORDS;

/// The most bytes of a program.
pub const PROGRAM_BYTES: usize = SHEET_BYTES + FACTS * FACT_BYTES;

/// The words of a program's table.
pub const PROGRAM_WORDS: usize = SHEET_WORDS + FACTS * FACT_WORDS;

/// The most clauses of a program.
pub const PROGRAM_CLAUSES: usize = CLAUSES + FACTS;

/// The kinds of token (RULES, "How a sheet is spelt").
#[derive(Clone, Copy, PartialEq, Eq)]
pub enum TokenKind {
    /// A byte that begins no token.
    NoToken,
    Name,
    Variable,
    Numeral,
    /// The pair `:-`.
    Neck,
    Open,
    Close,
    Comma,
    /// The full stop.
    Stop,
    Equals,
    Plus,
    Minus,
    Star,
    Semicolon,
    /// A name, variable or numeral of more than `WORD_BYTES` bytes.
    Overlong,
    /// The end of the text.
    End,
}

/// The classes of bytes: what a byte begins, or the token that it is by itself (RULES, "How a sheet is spelt").
#[derive(Clone, Copy, PartialEq, Eq)]
pub enum Class {
    /// It begins no token.
    Nothing,
    Blank,
    /// It begins a comment.
    Percent,
    /// A letter that begins a name.
    Lower,
    /// A letter or the underscore, which begins a variable.
    Upper,
    Digit,
    Colon,
    /// A token of one byte.
    Single(TokenKind),
}

/// One token of a text: its kind, its first byte, and its length in bytes, which is 0 at the end of the text.
#[derive(Clone, Copy)]
pub struct Token {
    pub kind: TokenKind,
    pub at: usize,
    pub len: usize,
}

/// Where the reader of a text stands: the token at hand, and how many variables (`count`) and literals the clause or goal has so far. The variables' first
/// occurrences stand in the last words of the node table (specs/Spans).
#[derive(Clone, Copy)]
pub struct ParserState {
    pub token: Token,
    pub count: usize,
    pub literals: usize,
}

/// The text that a refusal speaks of.
#[derive(Clone, Copy)]
pub enum Text {
    Sheet,
    Goal,
    Trace,
    Workings,
    /// No text: the settings of a run are at fault.
    Neither,
}

/// The refusals, each under its number in RULES, "The ten numbers, and four more" (specs/Refusals). A `byte`, or a number alone, is a place in the text at
/// fault, from 0 on; clauses, literals and arguments count from 1, a goal is clause 0 and a head literal 0. `at` and `len` are the place and the length of
/// the predicate's name, which is handed back.
#[derive(Clone, Copy)]
pub enum Refusal {
    /// 1: allowance or wanted count out of range.
    Settings,
    /// 2: a text of more bytes than it may have.
    TooLong,
    /// 3: a byte that begins no token.
    NoToken(usize),
    /// 4: a name, variable or numeral of more than `WORD_BYTES` bytes.
    Overlong(usize),
    /// 5: a token, or the text's end, that cannot stand here.
    Misplaced(usize),
    /// 6: a token past a limit on counts.
    OverLimit(usize),
    /// 7: the byte of the name of a declaration that repeats another, or names `true` or `fail`.
    Repeated(usize),
    /// 8: a head or call without declaration.
    Undeclared {
        clause: usize,
        literal: usize,
        at: usize,
        len: usize,
    },
    /// 9: a + argument of a call; the byte of the first variable in it that is not known ground.
    OpenInput {
        byte: usize,
        clause: usize,
        literal: usize,
        argument: usize,
        at: usize,
        len: usize,
    },
    /// 10: a - argument of a head; the byte as for 9.
    OpenOutput {
        byte: usize,
        clause: usize,
        argument: usize,
        at: usize,
        len: usize,
    },
    /// 13: the byte where the record begins, or that of the byte after filler.
    BadTrace(usize),
    /// 14: a trace of more bytes, or of more records of kind 1, than it may have.
    TraceOverLimit,
    /// 15: a record of kind 1, and `seen` of three arguments undeclared.
    SeenUndeclared,
    /// 16: the byte of the name of a declared predicate that has no clause.
    Unwritten(usize),
    /// 11: a sheet written afresh exceeds 16,384 bytes or the lent buffer.
    OutputTooLong,
    /// 12: fewer than 262,144 words lent to a run of several goals, or not one to four goals.
    WardSettings,
    /// 17: the workings of a goal are not accepted. The byte of the first record that is malformed or not used up.
    BadWorkings(usize),
    /// 18: the line that workings lead to exceeds the buffer.
    LineTooLong,
}

/// A refusal, with the text that it speaks of.
#[derive(Clone, Copy)]
pub struct Fault {
    pub text: Text,
    pub refusal: Refusal,
}

/// How many declarations and clauses a sheet has.
#[derive(Clone, Copy)]
pub struct Counts {
    pub declarations: usize,
    pub clauses: usize,
}

/// The answer to a text: accepted, with the counts, or its first fault. An accepted goal counts 0 and 0.
pub type Verdict = Result<Counts, Fault>;

/// What a run is asked for: the most steps, the answers wanted, and the mark of REQUESTS (x) for a sheet stored earlier, with which 16 is passed over.
#[derive(Clone, Copy)]
pub struct RunSettings {
    pub allowance: usize,
    pub wanted: usize,
    pub stored: bool,
}

/// How a run ends (RULES, "The run"). The ends are looked for in the order `Done`, `Wanted`, `Steps`, `Full`, `Deep`.
#[derive(Clone, Copy)]
pub enum RunEnd {
    /// As many answers as wanted.
    Wanted,
    /// No alternatives left.
    Done,
    /// The allowance is used.
    Steps,
    /// The next answer's line does not fit the room left.
    Full,
    /// The next step would try a clause at the path `LONGEST_PATH`.
    Deep,
}

/// What a run reports: how it ended, the answers written and the steps taken.
#[derive(Clone, Copy)]
pub struct Report {
    pub kind: RunEnd,
    pub answers: usize,
    pub steps: usize,
}

/// The answer to a run: its report, or the fault of a text.
pub type Run = Result<Report, Fault>;

/// The five numbers of a refusal, as RULES has them and as C is told them; a place that a refusal does not use is 0.
#[derive(Clone, Copy)]
pub struct Five {
    pub number: usize,
    pub byte: usize,
    pub clause: usize,
    pub literal: usize,
    pub argument: usize,
}

/// One declaration of a sheet: byte and length of the name in the sheet's text, and the number of arguments.
#[derive(Clone, Copy)]
pub struct Entry {
    pub at: usize,
    pub len: usize,
    pub arguments: usize,
}
