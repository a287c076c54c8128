// The memo of unification, in the scratch words behind the stack: the terms that this call has made equal, in classes.
// A class has a number; where two classes become one, their numbers are linked, the one of lower rank to the other. A node that was met has a row, with
// half a word for each of its copies: the number of that term's class, or 0. A slot, chosen by the node's place, says which row is the node's. Slots
// are never cleared: a row names its node, and the name is compared. A row is cleared when it is taken, and a call begins with no rows.
// Where no number or row is left, the memo begins anew (`begin_anew`). Scratch words that have a row for each node have room for every term.

ghost use Rattle.std.specs.Prelude.{IfSome, ◌≡◌, true, ◌+◌, ◌*◌, ◌/◌, ◌%◌, ◌-◌, ◌≤◌, ◌<◌, ◌^◌, length, get_or, set};
ghost use Rattle.run_layout.specs.Halves.{stored};
ghost use Rattle.run_layout.specs.Regions.{pairs, memo, cuts_word, class_count, memo_class, row_words, half_word, memo_row};
ghost use Rattle.bindings.specs.Scratch.{Roomy};
ghost use Rattle.bindings.specs.Memos.{link_of, class_in, Rowed, Entered, KnownEqual, Cleared, Opens, Assigns, Fresh, Reaches};
ghost use Rattle.bindings.specs.Memos.{ClassesLinked};
ghost use Rattle.bindings.specs.Memos.{MemoEmptied, Remembers, Weighed, Numbering, TermWords, RowInside, first_class, heaviest};

use run_layout::{
    CLASS_COUNT, CLASS_SIZE, CLASSES, COPIES, CUTS_WORD, HEIGHTS, KEY_COUNT, KEYS, MEMO, ROW_WORDS,
    ROWS, ROWS_WORD, SLOT_COUNT, SLOTS, WEIGHTS, half_of, with_half,
};
use words::tables::word_at;

// So many pairs are only counted: most unifications are done before.
const COUNTED: usize = 32;

// A pair that weighs less is never remembered.
const HEAVY: usize = 8;

// The most that a weight counts.
const HEAVIEST: usize = 1048576;

// The least weight of a pair that is remembered stands where the weight of height 0 would: no pair is so low.
const LIMIT_WORD: usize = WEIGHTS;

// The highest rank of a class is so far above the links that are numbers.
const RANKS: usize = 100;

// A term's word and this, divided by the number of copies, is the same for every copy of the node.
const SHIFT: usize = COPIES - 1;

/// Forgets all classes and all short cuts.
pub fn forget(scratch: &mut [u32])
    requires { memo < length scratch.old }
    ensures { scratch.new ≡ set (set scratch.old memo 0) cuts_word 0 }
{
    scratch[MEMO] = 0;
    scratch[CUTS_WORD] = 0;
}

// The row of a node.
fn row_of(scratch: &[u32], key: usize) -> Option<usize>
    requires { (Roomy scratch.now) × (key < 2 ^ 32) }
    ensures { IfSome result (λ k. Rowed scratch.now key k) }
{
    let slot = key / 2 % SLOT_COUNT;
    let w = word_at(scratch, SLOTS + slot);
    let k = half_of(0, w);
    let is_own = k < KEY_COUNT
        && k < word_at(scratch, ROWS_WORD)
        && word_at(scratch, KEYS + k) == key
        && ROWS + k * ROW_WORDS + ROW_WORDS <= scratch.len();
    if is_own { Some(k) } else { None }
}

// The number that stands in row k for the word v.
fn number_in(scratch: &[u32], k: usize, v: usize) -> usize
    requires { RowInside scratch.now k }
    ensures { result ≡ class_in scratch.now k v }
{
    let at = ROWS + k * ROW_WORDS + v % ROW_WORDS;
    let w = word_at(scratch, at);
    half_of(v / ROW_WORDS % 2, w)
}

// The number of a term's class.
fn number_of(scratch: &[u32], term: usize) -> Option<usize>
    requires { (Roomy scratch.now) × (term < 2 ^ 32) }
    ensures { IfSome result (λ i. Entered scratch.now term i) }
{
    let v = term + SHIFT;
    let k = row_of(scratch, v / COPIES)?;
    let i = number_in(scratch, k, v);
    if 0 < i && i < CLASS_COUNT {
        Some(i)
    } else {
        None
    }
}

// The link of number i: 0; or another number of its class, and 1; or, above CLASS_COUNT, its rank. 0 and ranks are compared as numbers in `join`.
fn link_at(scratch: &[u32], i: usize) -> usize
    requires { (Roomy scratch.now) × (i < class_count) }
    ensures { result ≡ link_of scratch.now i }
{
    let at = CLASSES + i * CLASS_SIZE + 1;
    word_at(scratch, at)
}

// Where the links lead from number i.
fn root_of(scratch: &[u32], i: usize) -> usize
    requires { (Roomy scratch.now) × (i < class_count) }
    ensures small { result < class_count }
    ensures leads { Reaches scratch.now i result }
{
    let mut r = i;
    for _ in 0..CLASS_COUNT {
        let w = link_at(scratch, r);
        if w == 0 || CLASS_COUNT < w {
            return r;
        }
        r = w - 1;
    }
    r
}

/// Whether the two terms, given by their words, are known to be equal.
pub fn known(scratch: &[u32], left: usize, right: usize) -> bool
    requires { (Roomy scratch.now) × TermWords left right }
    ensures { result ≡ true → KnownEqual scratch.now left right }
{
    if word_at(scratch, MEMO) <= COUNTED {
        return false;
    }
    let Some(i) = number_of(scratch, left) else {
        return false;
    };
    let Some(j) = number_of(scratch, right) else {
        return false;
    };
    let a = root_of(scratch, i);
    let b = root_of(scratch, j);
    a == b
}

// The words of a row.
fn clear(scratch: &mut [u32], base: usize)
    requires { base + row_words ≤ length scratch.old }
    ensures { Cleared scratch.old scratch.new base row_words }
{
    scratch[base..base + ROW_WORDS].fill(0);
}

// A row for a node, where there is room.
fn new_row(scratch: &mut [u32], key: usize) -> Option<usize>
    requires { (Roomy scratch.old) × (key < 2 ^ 32) }
    ensures { Opens scratch.old scratch.new key result }
{
    let k = word_at(scratch, ROWS_WORD);
    if KEY_COUNT <= k {
        return None;
    }
    let base = ROWS + k * ROW_WORDS;
    if scratch.len() < base + ROW_WORDS {
        return None;
    }
    clear(scratch, base);
    let slot = key / 2 % SLOT_COUNT;
    scratch[KEYS + k] = key as u32;
    scratch[SLOTS + slot] = k as u32;
    scratch[ROWS_WORD] = (k + 1) as u32;
    Some(k)
}

// The row of a node, which is new where it has none.
fn row_for(scratch: &mut [u32], key: usize) -> Option<usize>
    requires { (Roomy scratch.old) × (key < 2 ^ 32) }
    ensures { Opens scratch.old scratch.new key result }
{
    let row = row_of(scratch, key);
    if row.is_some() {
        return row;
    }
    new_row(scratch, key)
}

// The number i in row k for the word v.
fn put_number(scratch: &mut [u32], k: usize, v: usize, i: usize)
    requires { (RowInside scratch.old k) × (i < half_word) }
    ensures { scratch.new ≡ set scratch.old (memo_row k + v % row_words)
        (stored (v / row_words % 2) (get_or scratch.old (memo_row k + v % row_words) 0) i) }
{
    let at = ROWS + k * ROW_WORDS + v % ROW_WORDS;
    let w = word_at(scratch, at);
    scratch[at] = with_half(v / ROW_WORDS % 2, w, i);
}

// A term into the class of number i, where there is room.
fn assign(scratch: &mut [u32], term: usize, i: usize)
    requires { (Roomy scratch.old) × ((term < 2 ^ 32) × (i < class_count)) }
    ensures { Assigns scratch.old scratch.new term i }
{
    let v = term + SHIFT;
    let Some(k) = row_for(scratch, v / COPIES) else {
        return;
    };
    put_number(scratch, k, v, i);
}

// A number for the class of a term.
fn fresh(scratch: &mut [u32], term: usize) -> usize
    requires { (Roomy scratch.old) × ((Numbering scratch.old) × (term < 2 ^ 32)) }
    ensures { Fresh scratch.old scratch.new term result }
{
    let m = word_at(scratch, MEMO);
    let at = CLASSES + m * CLASS_SIZE;
    scratch[at] = term as u32;
    scratch[at + 1] = 0;
    scratch[MEMO] = (m + 1) as u32;
    m
}

// A class of two terms.
fn pair_up(scratch: &mut [u32], left: usize, right: usize)
    requires { (Roomy scratch.old) × ((Numbering scratch.old) × TermWords left right) }
    ensures { Remembers scratch.old scratch.new left right }
{
    let m = fresh(scratch, left);
    assign(scratch, left, m);
    assign(scratch, right, m);
}

// A link for number i.
fn put_link(scratch: &mut [u32], i: usize, link: usize)
    requires { (Roomy scratch.old) × ((i < class_count) × (link < half_word)) }
    ensures { scratch.new ≡ set scratch.old (memo_class i + 1) link }
{
    let at = CLASSES + i * CLASS_SIZE + 1;
    scratch[at] = link as u32;
}

// The link of a number that had link x, once a number that had link y is linked to it: its rank, which grows where the two ranks were equal.
fn raised(x: usize, y: usize) -> usize
    ensures { (class_count < result) × (result < half_word) }
{
    if x <= CLASS_COUNT {
        return CLASS_COUNT + 1;
    }
    if CLASS_COUNT + RANKS <= x {
        return CLASS_COUNT + RANKS;
    }
    if x == y {
        return x + 1;
    }
    x
}

// Two numbers, to which their classes lead, in one class: the one of lower rank is linked to the other.
fn join(scratch: &mut [u32], a: usize, b: usize)
    requires { (Roomy scratch.old) × ((a < class_count) × (b < class_count)) }
    ensures { ClassesLinked scratch.old scratch.new a b }
{
    let x = link_at(scratch, a);
    let y = link_at(scratch, b);
    if x < y {
        put_link(scratch, a, b + 1);
        return;
    }
    put_link(scratch, b, a + 1);
    put_link(scratch, a, raised(x, y));
}

// The classes of two numbers in one.
fn merge(scratch: &mut [u32], i: usize, j: usize)
    requires { (Roomy scratch.old) × ((i < class_count) × (j < class_count)) }
    ensures { ClassesLinked scratch.old scratch.new i j }
{
    let a = root_of(scratch, i);
    let b = root_of(scratch, j);
    if a == b {
        return;
    }
    join(scratch, a, b);
}

// The sum of two weights, at most HEAVIEST.
fn sum(x: usize, y: usize) -> usize
    ensures { result ≤ heaviest }
{
    x.saturating_add(y).min(HEAVIEST)
}

// No rows, and k classes, which have no number; so much a pair has to weigh.
fn begin(scratch: &mut [u32], k: usize, limit: usize)
    requires { (Roomy scratch.old) × ((k ≤ first_class) × (limit ≤ heaviest)) }
    ensures { MemoEmptied scratch.old scratch.new }
{
    scratch[ROWS_WORD] = 0;
    scratch[LIMIT_WORD] = limit as u32;
    scratch[MEMO] = k as u32;
}

// Whether there is no room for two rows more.
fn is_crowded(scratch: &[u32]) -> bool
    requires { Roomy scratch.now }
{
    let k = word_at(scratch, ROWS_WORD);
    KEY_COUNT - 2 < k || scratch.len() < ROWS + k * ROW_WORDS + 2 * ROW_WORDS
}

// The two terms in one class.
fn place(scratch: &mut [u32], left: usize, right: usize)
    requires { (Roomy scratch.old) × ((Numbering scratch.old) × TermWords left right) }
    ensures { Remembers scratch.old scratch.new left right }
{
    match (number_of(scratch, left), number_of(scratch, right)) {
        (None, None) => pair_up(scratch, left, right),
        (None, Some(j)) => assign(scratch, left, j),
        (Some(i), None) => assign(scratch, right, i),
        (Some(i), Some(j)) => merge(scratch, i, j),
    }
}

// The memo begins anew, and a pair has to weigh twice as much: so what fits no memo of pairs of a weight comes to fit, and is not found again and again.
fn begin_anew(scratch: &mut [u32])
    requires { Roomy scratch.old }
    ensures { MemoEmptied scratch.old scratch.new }
{
    let limit = word_at(scratch, LIMIT_WORD);
    let next = sum(limit, limit);
    begin(scratch, COUNTED, next);
}

// The two terms, which had their arguments done, in one class, unless they are among the first. Where there is no room left, the memo begins anew.
fn enter(scratch: &mut [u32], left: usize, right: usize)
    requires { (Roomy scratch.old) × TermWords left right }
    ensures { Remembers scratch.old scratch.new left right }
{
    let m = word_at(scratch, MEMO);
    if m < COUNTED {
        begin(scratch, m + 1, HEAVY);
        return;
    }
    if CLASS_COUNT <= m || is_crowded(scratch) {
        begin_anew(scratch);
        return;
    }
    place(scratch, left, right);
}

// The weight of the pair at height h of the stack, which is done: the number of words of its left term, and the weights of the pairs that were put upon
// it. Where it is light, it is added to what was put upon the pair below, and none is told.
fn weigh(scratch: &mut [u32], h: usize, size: usize) -> Option<usize>
    requires { (Roomy scratch.old) × (h < pairs) }
    ensures { Weighed scratch.old scratch.new }
{
    let at = WEIGHTS + h;
    let weight = sum(word_at(scratch, at + 1), size);
    let below = word_at(scratch, at);
    scratch[at + 1] = 0;
    if weight < HEAVY {
        scratch[at] = sum(below, weight) as u32;
        return None;
    }
    Some(weight)
}

// A weight added to what was put upon the pair below the one at height h.
fn put_weight(scratch: &mut [u32], h: usize, weight: usize)
    requires { (Roomy scratch.old) × (h < pairs) }
    ensures { Weighed scratch.old scratch.new }
{
    let at = WEIGHTS + h;
    let below = word_at(scratch, at);
    scratch[at] = sum(below, weight) as u32;
}

// The least weight of a pair that is remembered at present. It is set when the first pairs are counted.
fn least_weight(scratch: &[u32]) -> usize
    requires { Roomy scratch.now }
{
    if word_at(scratch, MEMO) < COUNTED {
        return HEAVY;
    }
    word_at(scratch, LIMIT_WORD)
}

// The two terms, a pair of that weight at height h of the stack, remembered where it is worth it: it would take long to find it equal again. Then it weighs 1,
// since it is found in one turn.
fn keep(scratch: &mut [u32], h: usize, weight: usize, left: usize, right: usize)
    requires { ((Roomy scratch.old) × (h < pairs)) × TermWords left right }
    ensures { Remembers scratch.old scratch.new left right }
{
    let least = least_weight(scratch);
    if weight < least {
        put_weight(scratch, h, weight);
        return;
    }
    put_weight(scratch, h, 1);
    enter(scratch, left, right);
}

/// Remembers that two terms, given by their words, are equal, unless this can be found again in a few turns. They are a pair at height h of the stack, and the
/// left term has so many words.
pub fn remember(scratch: &mut [u32], h: usize, size: usize, left: usize, right: usize)
    requires { (Roomy scratch.old) × TermWords left right }
    ensures { Remembers scratch.old scratch.new left right }
{
    if HEIGHTS - 2 < h {
        return;
    }
    let Some(weight) = weigh(scratch, h, size) else {
        return;
    };
    keep(scratch, h, weight, left, right);
}
