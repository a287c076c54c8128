// The + arguments of two clauses of one predicate unified, one pair under the bindings of those before it.

ghost use Rattle.std.specs.Prelude.{eqb};
ghost use Rattle.syntax.specs.Terms.{input};
ghost use Rattle.syntax.specs.Words.{first_mark, mark_number};
ghost use Rattle.determinacy.specs.Joins.{Paired, InputUnified, Joinable, InputsJoined};

use run_layout::terms::At;
use syntax::INPUT;
use unify::solve::{UnifyAnswer, unify};
use words::packing::{first_mark, other_marks};
use words::tables::past;

// The copy that the first clause is, "with variables kept apart".
const LEFT_COPY: usize = 1;

// The copy that the second clause is.
const RIGHT_COPY: usize = 2;

/// The arguments of two heads that are left: of one head those from `left` to `stop`, of the other, as many, those from `right` on; and their marks in one
/// number, the first lowest. Places are of nodes in the program's table.
#[derive(Clone, Copy)]
pub struct Arguments {
    pub left: usize,
    pub stop: usize,
    pub right: usize,
    pub marks: usize,
}

// Unifies the first two of them where the first of the marks is +, with n bindings; else they count as equal.
fn unify_input(
    nodes: &[u32],
    state: &mut [u32],
    scratch: &mut [u32],
    args: Arguments,
    n: usize,
) -> UnifyAnswer
    requires { Paired nodes.now state.old scratch.old args.left args.right n }
    ensures { (w : Paired nodes.now state.old scratch.old args.left args.right n)
        → InputUnified w state.new scratch.new (eqb (first_mark args.marks) (mark_number input)) result }
{
    if first_mark(args.marks) != INPUT {
        return UnifyAnswer {
            equal: true,
            trail: n,
        };
    }
    unify(
        nodes,
        state,
        scratch,
        At {
            node: args.left,
            copy: LEFT_COPY,
        },
        At {
            node: args.right,
            copy: RIGHT_COPY,
        },
        n,
    )
}

/// Unifies the arguments pair by pair where they are marked +, each pair under the bindings of those before. With `n` bindings at first; returned is whether
/// all pairs unify, and how many bindings there are then.
pub fn join_inputs(
    nodes: &[u32],
    state: &mut [u32],
    scratch: &mut [u32],
    args: Arguments,
    n: usize,
) -> UnifyAnswer
    requires { Joinable nodes.now state.old scratch.old args.left args.stop args.right args.marks n }
    ensures { (w : Joinable nodes.now state.old scratch.old args.left args.stop args.right args.marks n) → InputsJoined w state.new scratch.new result }
{
    if args.stop <= args.left {
        return UnifyAnswer {
            equal: true,
            trail: n,
        };
    }
    let u = unify_input(nodes, state, scratch, args, n);
    let trail = u.trail;
    if !u.equal {
        return UnifyAnswer {
            equal: false,
            trail,
        };
    }
    let rest = Arguments {
        left: past(nodes, args.left),
        stop: args.stop,
        right: past(nodes, args.right),
        marks: other_marks(args.marks),
    };
    join_inputs(nodes, state, scratch, rest, trail)
}
