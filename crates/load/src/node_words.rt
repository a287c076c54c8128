// What was read of a text, and the words of a copied node: a variable, or a name by its place.

ghost use Rattle.std.specs.Prelude.{◌≡◌, ◌+◌, ◌*◌, ◌≤◌, ◌<◌, ◌/◌};
ghost use Rattle.syntax.specs.Limits.{arguments};
ghost use Rattle.load.specs.Flat.{number_of, flat_what, NameFits};
ghost use Rattle.syntax.specs.Words.{node_words};
ghost use Rattle.run_layout.specs.Regions.{loaded_node};

use run_layout::{LOADED_NODE, pack_symbol};
use syntax::{FIRST_NAME, NODE_WORDS};
use words::packing::{arity_of, length_of};

/// A sheet as it was read: its text, and the table in which so many clauses stand, one behind the other from word 0 on.
#[derive(Clone, Copy)]
pub struct ReadSheet<'a> {
    pub text: &'a [u8],
    pub table: &'a [u32],
    pub clauses: usize,
}

/// A goal as it was read: its text, and the table in which its body of so many items stands from word 0 on.
#[derive(Clone, Copy)]
pub struct ReadGoal<'a> {
    pub text: &'a [u8],
    pub table: &'a [u32],
    /// The items of the body: its literals, and the words of brackets.
    pub literals: usize,
}

/// The text in which a name stands. The same name in both texts, with as many arguments, is one symbol.
#[derive(Clone, Copy)]
pub enum Source {
    Sheet,
    Goal,
}

// The number of a text in a symbol's word.
fn number_of(source: Source) -> usize
    ensures { (result ≡ number_of source) × (result ≤ 1) }
{
    match source {
        Source::Sheet => 0,
        Source::Goal => 1,
    }
}

/// The first number of a name: a node whose first word is below it is a variable.
pub const NAMED: u32 = FIRST_NAME as u32;

/// By this the symbol's word is multiplied in a copied name, and the number of arguments added.
pub const ARITIES: u32 = 32;

/// The first word of a copied node, from its first word `what` and its third, `byte`, as read: a variable's number; or, from `NAMED` on, the symbol's word
/// (the name's place, text and length) with the number of arguments.
pub fn name_word(what: u32, byte: u32, source: Source) -> u32
    requires { NameFits what byte }
    ensures { result ≡ flat_what (number_of source) what byte }
{
    if what < NAMED {
        return what;
    }
    let name = what as usize;
    let place = byte as usize;
    let text = number_of(source);
    let word = pack_symbol(place, text, length_of(name));
    let arguments = arity_of(name);
    NAMED + word * ARITIES + arguments as u32
}

// The words of a node without its arguments: as read, and as copied.
const READ_NODE: u32 = NODE_WORDS as u32;

const COPIED_NODE: u32 = LOADED_NODE as u32;

/// How many words a copied node takes with its arguments, by how many it takes as read: two for each three.
pub fn two_of_three(size: u32) -> u32
    ensures { result ≡ size / node_words * loaded_node }
{
    size / READ_NODE * COPIED_NODE
}
