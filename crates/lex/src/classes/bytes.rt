// The class of each byte, by its number (RULES, "How a sheet is spelt").
use syntax::{Class, TokenKind};

const NOTHING: Class = Class::Nothing;

const BLANK: Class = Class::Blank;

const LOWER: Class = Class::Lower;

const UPPER: Class = Class::Upper;

const DIGIT: Class = Class::Digit;

/// The class of the byte of each number from 0 to 255; those past ASCII begin no token.
pub static CLASSES: [Class; 256] = [
    NOTHING,
    NOTHING,
    NOTHING,
    NOTHING,
    NOTHING,
    NOTHING,
    NOTHING,
    NOTHING,
    NOTHING,
    BLANK, // tab
    BLANK, // line feed
    NOTHING,
    NOTHING,
    BLANK, // carriage return
    NOTHING,
    NOTHING,
    NOTHING,
    NOTHING,
    NOTHING,
    NOTHING,
    NOTHING,
    NOTHING,
    NOTHING,
    NOTHING,
    NOTHING,
    NOTHING,
    NOTHING,
    NOTHING,
    NOTHING,
    NOTHING,
    NOTHING,
    NOTHING,
    BLANK, // space
    NOTHING,
    NOTHING,
    NOTHING,
    NOTHING,
    Class::Percent, // %
    NOTHING,
    NOTHING,
    Class::Single(TokenKind::Open), // (
    Class::Single(TokenKind::Close), // )
    Class::Single(TokenKind::Star), // *
    Class::Single(TokenKind::Plus), // +
    Class::Single(TokenKind::Comma), // ,
    Class::Single(TokenKind::Minus), // -
    Class::Single(TokenKind::Stop), // .
    NOTHING,
    DIGIT, // 0
    DIGIT, // 1
    DIGIT, // 2
    DIGIT, // 3
    DIGIT, // 4
    DIGIT, // 5
    DIGIT, // 6
    DIGIT, // 7
    DIGIT, // 8
    DIGIT, // 9
    Class::Colon, // :
    Class::Single(TokenKind::Semicolon), // ;
    NOTHING,
    Class::Single(TokenKind::Equals), // =
    NOTHING,
    NOTHING,
    NOTHING,
    UPPER, // A
    UPPER, // B
    UPPER, // C
    UPPER, // D
    UPPER, // E
    UPPER, // F
    UPPER, // G
    UPPER, // H
    UPPER, // I
    UPPER, // J
    UPPER, // K
    UPPER, // L
    UPPER, // M
    UPPER, // N
    UPPER, // O
    UPPER, // P
    UPPER, // Q
    UPPER, // R
    UPPER, // S
    UPPER, // T
    UPPER, // U
    UPPER, // V
    UPPER, // W
    UPPER, // X
    UPPER, // Y
    UPPER, // Z
    NOTHING,
    NOTHING,
    NOTHING,
    NOTHING,
    UPPER, // _
    NOTHING,
    LOWER, // a
    LOWER, // b
    LOWER, // c
    LOWER, // d
    LOWER, // e
    LOWER, // f
    LOWER, // g
    LOWER, // h
    LOWER, // i
    LOWER, // j
    LOWER, // k
    LOWER, // l
    LOWER, // m
    LOWER, // n
    LOWER, // o
    LOWER, // p
    LOWER, // q
    LOWER, // r
    LOWER, // s
    LOWER, // t
    LOWER, // u
    LOWER, // v
    LOWER, // w
    LOWER, // x
    LOWER, // y
    LOWER, // z
    NOTHING,
    NOTHING,
    NOTHING,
    NOTHING,
    NOTHING,
    NOTHING, // 128, past ASCII
    NOTHING,
    NOTHING,
    NOTHING,
    NOTHING,
    NOTHING,
    NOTHING,
    NOTHING,
    NOTHING,
    NOTHING,
    NOTHING,
    NOTHING,
    NOTHING,
    NOTHING,
    NOTHING,
    NOTHING,
    NOTHING,
    NOTHING,
    NOTHING,
    NOTHING,
    NOTHING,
    NOTHING,
    NOTHING,
    NOTHING,
    NOTHING,
    NOTHING,
    NOTHING,
    NOTHING,
    NOTHING,
    NOTHING,
    NOTHING,
    NOTHING,
    NOTHING,
    NOTHING,
    NOTHING,
    NOTHING,
    NOTHING,
    NOTHING,
    NOTHING,
    NOTHING,
    NOTHING,
    NOTHING,
    NOTHING,
    NOTHING,
    NOTHING,
    NOTHING,
    NOTHING,
    NOTHING,
    NOTHING,
    NOTHING,
    NOTHING,
    NOTHING,
    NOTHING,
    NOTHING,
    NOTHING,
    NOTHING,
    NOTHING,
    NOTHING,
    NOTHING,
    NOTHING,
    NOTHING,
    NOTHING,
    NOTHING,
    NOTHING,
    NOTHING,
    NOTHING,
    NOTHING,
    NOTHING,
    NOTHING,
    NOTHING,
    NOTHING,
    NOTHING,
    NOTHING,
    NOTHING,
    NOTHING,
    NOTHING,
    NOTHING,
    NOTHING,
    NOTHING,
    NOTHING,
    NOTHING,
    NOTHING,
    NOTHING,
    NOTHING,
    NOTHING,
    NOTHING,
    NOTHING,
    NOTHING,
    NOTHING,
    NOTHING,
    NOTHING,
    NOTHING,
    NOTHING,
    NOTHING,
    NOTHING,
    NOTHING,
    NOTHING,
    NOTHING,
    NOTHING,
    NOTHING,
    NOTHING,
    NOTHING,
    NOTHING,
    NOTHING,
    NOTHING,
    NOTHING,
    NOTHING,
    NOTHING,
    NOTHING,
    NOTHING,
    NOTHING,
    NOTHING,
    NOTHING,
    NOTHING,
    NOTHING,
    NOTHING,
    NOTHING,
    NOTHING,
    NOTHING,
    NOTHING,
    NOTHING,
    NOTHING,
    NOTHING,
    NOTHING,
    NOTHING,
    NOTHING,
    NOTHING,
    NOTHING,
];
