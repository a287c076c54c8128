// Words of the state: frames and alternatives, by their fields.
ghost use Rattle.std.specs.Prelude.{◌≡◌, ◌+◌, ◌≤◌, ◌<◌, ◌^◌, length};
ghost use Rattle.run_layout.specs.Regions.{frame_of, alternative_of, frame_size, alternative_size};
ghost use Rattle.run.specs.Words.{top_at, caller_at, top_words, next_words, frame_words};

use run_layout::{ALTERNATIVE_SIZE, ALTERNATIVES, FRAME_SIZE, FRAMES};
use words::tables::word_at;

/// An alternative as its words: the literal it stands at as copy and record, the next clause to be tried there (0 for none), the length of the trail that it
/// was laid with (`mark`), and its path.
#[derive(Clone, Copy)]
pub struct Top {
    pub copy: usize,
    pub literal: usize,
    pub next: usize,
    pub mark: usize,
    pub path: usize,
}

/// A literal of a clause copy: the copy's number, 0 for the goal, and the literal's record in the code.
#[derive(Clone, Copy)]
pub struct Spot {
    pub copy: usize,
    pub literal: usize,
}

/// Alternative `j` of the pile, counted from 0.
pub fn top_at(state: &[u32], j: usize) -> Top
    requires { alternative_of j + alternative_size ≤ length state.now }
    ensures { result ≡ top_at state.now j }
{
    let i = ALTERNATIVES + j * ALTERNATIVE_SIZE;
    let copy = word_at(state, i);
    let literal = word_at(state, i + 1);
    let next = word_at(state, i + 2);
    let mark = word_at(state, i + 3);
    let path = word_at(state, i + 4);
    Top {
        copy,
        literal,
        next,
        mark,
        path,
    }
}

/// The call that copy `k` was made for: the calling copy and the call's record.
pub fn caller_at(state: &[u32], k: usize) -> Spot
    requires { frame_of k + frame_size ≤ length state.now }
    ensures { result ≡ caller_at state.now k }
{
    let i = FRAMES + k * FRAME_SIZE;
    let copy = word_at(state, i + 1);
    let literal = word_at(state, i + 2);
    Spot { copy, literal }
}

/// Stores alternative `j` of the pile.
pub fn put_top(state: &mut [u32], j: usize, s: Top)
    requires { (alternative_of j + alternative_size ≤ length state.old) × (((s.copy < 2 ^ 32) × (s.literal < 2 ^ 32))
        × ((s.next < 2 ^ 32) × ((s.mark < 2 ^ 32) × (s.path < 2 ^ 32)))) }
    ensures { state.new ≡ top_words state.old j s.copy s.literal s.next s.mark s.path }
{
    let i = ALTERNATIVES + j * ALTERNATIVE_SIZE;
    // Word by word, here and in `put_frame`: this decides the speed of a step.
    state[i] = s.copy as u32;
    state[i + 1] = s.literal as u32;
    state[i + 2] = s.next as u32;
    state[i + 3] = s.mark as u32;
    state[i + 4] = s.path as u32;
}

/// Stores the next clause of alternative `j`, 0 for none.
pub fn put_next(state: &mut [u32], j: usize, next: usize)
    requires { (alternative_of j + alternative_size ≤ length state.old) × (next < 2 ^ 32) }
    ensures { state.new ≡ next_words state.old j next }
{
    let i = ALTERNATIVES + j * ALTERNATIVE_SIZE + 2;
    state[i] = next as u32;
}

/// Stores the frame of copy `k`: its clause, and the call that it was made for as copy and record.
pub fn put_frame(state: &mut [u32], k: usize, clause: usize, copy: usize, literal: usize)
    requires { (frame_of k + frame_size ≤ length state.old) × ((clause < 2 ^ 32) × ((copy < 2 ^ 32) × (literal < 2 ^ 32))) }
    ensures { state.new ≡ frame_words state.old k clause copy literal }
{
    let i = FRAMES + k * FRAME_SIZE;
    state[i] = clause as u32;
    state[i + 1] = copy as u32;
    state[i + 2] = literal as u32;
}
