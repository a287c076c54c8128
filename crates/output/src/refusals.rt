// The numbers of a refusal, and whether a text is too long.

ghost use Rattle.std.specs.Prelude.{◌≡◌, ltb};
ghost use Rattle.syntax.specs.Refusals.{numbers_of};

use syntax::{Five, Refusal};

// The five numbers of no refusal: "Unused places are 0."
const ZEROS: Five = Five {
    number: 0,
    byte: 0,
    clause: 0,
    literal: 0,
    argument: 0,
};

// A refusal that has its number alone.
fn plain(number: usize) -> Five
    ensures { result ≡ record { number = number; byte = 0; clause = 0; literal = 0; argument = 0 } }
{
    Five { number, ..ZEROS }
}

// A refusal with the byte of a token.
fn at_byte(number: usize, byte: usize) -> Five
    ensures { result ≡ record { number = number; byte = byte; clause = 0; literal = 0; argument = 0 } }
{
    Five {
        number,
        byte,
        ..ZEROS
    }
}

/// The five numbers that RULES gives a refusal. A definition gives them for each case, the form that REQUESTS, "The forms asked for", asks of an enum.
pub fn numbers(refusal: Refusal) -> Five
    ensures { result ≡ numbers_of refusal }
{
    match refusal {
        Refusal::Settings => plain(1),
        Refusal::TooLong => plain(2),
        Refusal::NoToken(byte) => at_byte(3, byte),
        Refusal::Overlong(byte) => at_byte(4, byte),
        Refusal::Misplaced(byte) => at_byte(5, byte),
        Refusal::OverLimit(byte) => at_byte(6, byte),
        Refusal::Repeated(byte) => at_byte(7, byte),
        Refusal::Undeclared {
            clause,
            literal,
            ..
        } => Five {
            number: 8,
            clause,
            literal,
            ..ZEROS
        },
        Refusal::OpenInput {
            byte,
            clause,
            literal,
            argument,
            ..
        } => Five {
            number: 9,
            byte,
            clause,
            literal,
            argument,
        },
        Refusal::OpenOutput {
            byte,
            clause,
            argument,
            ..
        } => Five {
            number: 10,
            byte,
            clause,
            argument,
            ..ZEROS
        },
        Refusal::BadTrace(byte) => at_byte(13, byte),
        Refusal::TraceOverLimit => plain(14),
        Refusal::SeenUndeclared => plain(15),
        Refusal::OutputTooLong => plain(11),
        Refusal::WardSettings => plain(12),
        Refusal::Unwritten(byte) => at_byte(16, byte),
        Refusal::BadWorkings(byte) => at_byte(17, byte),
        Refusal::LineTooLong => plain(18),
    }
}

/// Whether a text is longer than it may be: a sheet than `SHEET_BYTES`, a goal than `GOAL_BYTES`.
pub fn is_too_long<const MOST: usize>(bytes: usize) -> bool
    ensures { result ≡ ltb MOST bytes }
{
    MOST < bytes
}
