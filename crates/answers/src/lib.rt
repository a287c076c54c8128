// The line of an answer, spelt from the words of a run: the goal's variables with their values, as RULES tells at the end of "The run".

#![tactic(auto)]

pub mod lines;
mod numbers;
mod records;
pub mod values;
mod walk;

/// A solution of a goal as it stands in the words of a run. Terms and values are spelt from it; it is only read. What is written goes beside it: the table of
/// numbers, the stack and the text, with what is asked of them (`Counting`, `Ample`).
#[derive(Clone, Copy)]
pub struct Solution<'a> {
    pub nodes: &'a [u32],
    /// The words with the bindings.
    pub state: &'a [u32],
    /// The words of the symbols, which say where in `sheet` or `goal` a name stands.
    pub symbols: &'a [u32],
    pub sheet: &'a [u8],
    pub goal: &'a [u8],
    /// The packed names of the goal's variables, by first appearance; the first `count` are in use.
    pub names: &'a [u32],
    pub count: usize,
}
