// The goal's variables with their values.
ghost use Rattle.std.specs.Prelude.{◌≡◌, ◌⊎◌, List, [], ◌∷◌, ◌++◌, ℕ, suc, ◌+◌, ◌-◌, ◌*◌, ◌^◌, ◌≤◌, ◌<◌};
ghost use Rattle.syntax.specs.Limits.{word_bytes};
ghost use Rattle.syntax.specs.Spans.{spanned, SpanInside, names_from};
ghost use Rattle.run_layout.specs.Regions.{open_size};
ghost use Rattle.syntax.specs.Quote.{bytes};
ghost use Rattle.words.specs.Buffers.{Appended};
ghost use Rattle.machine.specs.Substitution.{Variable};
ghost use Rattle.machine.specs.Answers.{Piece, spelt, bytes_of, is_anonymous, all_anonymous, values_from};
ghost use Rattle.run_layout.specs.Nodes.{Symbol};
ghost use Rattle.answers.specs.Words.{Numbers, Named};
ghost use Rattle.answers.specs.Telling.{Ample, Counting, SomeNumbers, Valued, SomeValued, Values, SomeValues, SpeltToLimit, Lined, value_in, gap};
ghost use Rattle.answers.specs.Telling.{bindings_of, names_of, written};

use crate::Solution;
use crate::numbers::append_unbound;
use run_layout::terms::unpack;
use words::buffers::{append_all, append_byte, append_part};
use words::packing::{span_at, span_length};
use words::tables::word_at;

/// Whether a packed name of the goal is `_` alone.
pub fn is_anonymous(goal: &[u8], w: u32) -> bool
    requires { SpanInside goal.now w }
    ensures { result ≡ is_anonymous (spanned goal.now w) }
{
    span_length(w) == 1 && words::texts::byte_at(goal, span_at(w)) == b'_'
}

/// Whether no variable is to be given: each of the goal's is `_`, or it has none. The line is `yes` then.
pub fn all_anonymous(goal: &[u8], names: &[u32], count: usize) -> bool
    requires { Named goal.now names.now count }
    ensures { result ≡ all_anonymous (names_from goal.now names.now 0 count) }
{
    for i in 0..count {
        if !is_anonymous(goal, names[i]) {
            return false;
        }
    }
    true
}

// What stands before a variable that is given: nothing before the first.
fn append_gap(more: bool, out: &mut [u8], at: usize) -> usize
    requires { at + 200 < 2 ^ 64 }
    ensures { Appended out.old at (gap more) out.new result }
{
    if more { append_all(b", ", out, at) } else { at }
}

/// Appends a variable, what stands before it, and the sign behind it.
pub fn append_variable(goal: &[u8], w: u32, more: bool, out: &mut [u8], at: usize) -> usize
    requires { (SpanInside goal.now w) × (at + 300 < 2 ^ 64) }
    ensures wrote { Appended out.old at (gap more ++ (spanned goal.now w ++ bytes " = ")) out.new result }
    ensures near { (at ≤ result) × (result ≤ at + (word_bytes + 5)) }
{
    let past = append_gap(more, out, at);
    let place = span_at(w);
    let len = span_length(w);
    let past_name = append_part(goal, place, len, out, past);
    append_all(b" = ", out, past_name)
}

/// How far the line has come: the position, and whether a variable is given already.
#[derive(Clone, Copy)]
pub struct SpeltVariable {
    pub at: usize,
    pub more: bool,
}

impl<'a> Solution<'a> {
    /// Appends the value of the goal's variable i and gives the position past it; once the limit is passed it stops, and the text is not the whole value.
    pub fn append_value(
        self,
        i: usize,
        numbers: &mut [u32],
        stack: &mut [u32],
        out: &mut [u8],
        at: usize,
        limit: usize,
    ) -> usize
        requires some_valued { SomeValued self stack.old i }
        requires counting { (Counting numbers.old at) × ((at + 200 < 2 ^ 64) × ((limit + 200 < 2 ^ 64)
            × Ample stack.old ((limit - at) * open_size + 2 * open_size))) }
        ensures told { (ss : List Symbol) (n : ℕ) (met : List Variable) (rest : List Piece)
            → Valued ss n self.entry stack.old i
            → Numbers numbers.old met → SpeltToLimit limit (bytes_of met (spelt (value_in (bindings_of ss n self.entry) i) rest))
            (written numbers.old out.old at) (written numbers.new out.new result) rest }
        ensures near { (at ≤ result) × ((result ≤ limit + (word_bytes + 1)) ⊎ (result ≤ at + word_bytes)) }
    {
        let w = word_at(self.state, i);
        if w == 0 {
            return append_unbound(numbers, i, out, at);
        }
        let bound = unpack(w);
        let t = self.append_term(bound, numbers, stack, out, at, 0);
        self.append_rows(numbers, stack, out, t.at, t.height, limit)
    }

    /// Appends the goal's variable i with its value, unless it is `_`; w is its packed name.
    pub fn append_binding(
        self,
        w: u32,
        i: usize,
        from: SpeltVariable,
        numbers: &mut [u32],
        stack: &mut [u32],
        out: &mut [u8],
        limit: usize,
    ) -> SpeltVariable
        requires some_valued { SomeValued self stack.old i }
        requires span_inside { (SpanInside self.goal.now w) × ((Counting numbers.old from.at) × ((from.at + 300 < 2 ^ 64)
            × ((limit + 200 < 2 ^ 64) × Ample stack.old ((limit - from.at) * open_size + 2 * open_size)))) }
        ensures told { (ss : List Symbol) (n : ℕ) (met : List Variable) (xs : List (List ℕ))
            → Valued ss n self.entry stack.old i
            → Numbers numbers.old met → SpeltToLimit limit (bytes_of met (values_from (bindings_of ss n self.entry) i (gap from.more)
            (spanned self.entry.goal.now w ∷ xs))) (written numbers.old out.old from.at) (written numbers.new out.new result.at)
            (values_from (bindings_of ss n self.entry) (suc i) (gap result.more) xs) }
        ensures near { (from.at ≤ result.at) × ((result.at ≤ limit + (word_bytes + 1)) ⊎ (result.at ≤ from.at + (2 * word_bytes + 5))) }
    {
        if is_anonymous(self.goal, w) {
            return from;
        }
        let past = append_variable(self.goal, w, from.more, out, from.at);
        let past_value = self.append_value(i, numbers, stack, out, past, limit);
        SpeltVariable {
            at: past_value,
            more: true,
        }
    }

    /// Appends the variables that are given, each with its value, and the line feed; it stops once the limit is passed. A text that is too short takes what
    /// fits, so an empty one measures the line.
    pub fn append_values(
        self,
        numbers: &mut [u32],
        stack: &mut [u32],
        out: &mut [u8],
        at: usize,
        limit: usize,
    ) -> usize
        requires some_values { SomeValues self stack.old }
        requires counting { (Counting numbers.old at) × ((at + 400 < 2 ^ 64) × ((limit + 400 < 2 ^ 64)
            × Ample stack.old ((limit - at) * open_size + 2 * open_size))) }
        ensures lined { (ss : List Symbol) (n : ℕ) (met : List Variable) → Values ss n self.entry stack.old → Numbers numbers.old met
            → Lined limit (bytes_of met (values_from (bindings_of ss n self.entry) 0 [] (names_of self.entry)))
            out.old at out.new result }
        ensures numbered { SomeNumbers numbers.new }
    {
        let mut listed = SpeltVariable { at, more: false };
        for i in 0..self.count {
            if limit < listed.at {
                return listed.at;
            }
            let w = self.names[i];
            listed = self.append_binding(w, i, listed, numbers, stack, out, limit);
        }
        append_byte(b'\n', out, listed.at)
    }
}
