// The search for the clauses of a predicate: a head's first word tells its predicate.

ghost use Rattle.std.specs.Prelude.{◌≡◌, ◌*◌, ◌≤◌, ◌<◌, ◌+◌, ◌-◌, length, get_or};
ghost use Rattle.syntax.specs.Words.{program_clauses};
ghost use Rattle.run_layout.specs.Regions.{clause_record};
ghost use Rattle.run_layout.specs.Program.{head_at};
ghost use Rattle.load.specs.Search.{sought, HeadsPlaced};

use run_layout::CLAUSE_SIZE;
use words::tables::word_at;

/// The heads of a program's clauses: its loaded nodes, and how many clauses it has. Their places stand in the code.
#[derive(Clone, Copy)]
pub struct Heads<'a> {
    pub nodes: &'a [u32],
    pub clauses: usize,
}

// The first word of the head of clause j.
fn head_word(nodes: &[u32], code: &[u32], j: usize) -> usize
    requires { (j ≤ program_clauses) × ((clause_record j < length code.now) × (head_at code.now j < length nodes.now)) }
    ensures { result ≡ get_or nodes.now (head_at code.now j) 0 }
{
    let at = j * CLAUSE_SIZE;
    let head = word_at(code, at);
    word_at(nodes, head)
}

/// The topmost clause after clause k whose head has this first word, by its number from 1 on; 0 stands for none, here as in the code.
pub fn next_for(heads: Heads, code: &[u32], word: usize, k: usize) -> usize
    requires heads_placed { HeadsPlaced heads.nodes.now code.now heads.clauses }
    requires k_le_clauses { k ≤ heads.clauses }
    ensures { result ≡ sought heads.entry.nodes.now code.now word (k + 1) (heads.entry.clauses - k) }
{
    (k + 1..heads.clauses + 1)
        .find(
            |&j|
                requires { (j ≤ program_clauses) × ((clause_record j < length code.now) × (head_at code.now j < length heads.nodes.now)) }
            { head_word(heads.nodes, code, j) == word },
        )
        .unwrap_or(0)
}
