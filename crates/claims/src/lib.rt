// What is promised above single calls: each theorem about the definitions as the contract of a function without parameters and without code. The
// definitions are those that the contracts of the public functions cite (`pilvaust`, `exports`), so each theorem speaks of what these functions give.

#![tactic(auto)]

ghost use Rattle.std.specs.Prelude.{◌≡◌, ◌≤◌, ◌<◌, ◌+◌, ◌*◌, ◌↔◌, ◌⊎◌, T, List, [], ◌∷◌, ℕ, suc, Bool, true, false, length, Result};
ghost use Rattle.std.proofs.lemmas.List.Edits.{sets};
ghost use Rattle.std.proofs.Math.Option.{none, some};
ghost use Rattle.syntax.specs.Limits.{variables, literals, longest_path, most_steps};
ghost use Rattle.syntax.specs.Numerals.{trimmed, zero_digit};
ghost use Rattle.syntax.specs.Terms.{Term, Atom, Body, Declaration, Clause, Sheet, Goal, same_name, call};
ghost use Rattle.syntax.specs.Reading.{Cursor, spelt, numeral_at};
ghost use Rattle.syntax.specs.declared.Entry.{Entry};
ghost use Rattle.syntax.specs.declared.Fault.{Fault};
ghost use Rattle.syntax.specs.declared.Refusal.{Refusal};
ghost use Rattle.syntax.specs.declared.Refusal.TheVariants.{Unwritten};
ghost use Rattle.syntax.specs.declared.Text.{Text};
ghost use Rattle.syntax.specs.Verdicts.{Accepted, Ended, Refused, accepted, sheet_of, goal_outcome};
ghost use Rattle.mode_rules.specs.Modes.{Known, equate, settle, sheet_fault};
ghost use Rattle.mode_rules.specs.Written.{WrittenOrStored};
ghost use Rattle.mode_rules.specs.Judgment.{BodyModed, Settling, WellModed, WellModedGoal};
ghost use Rattle.mode_rules.specs.Checking.{checked_with, checked_goal, verdict_with, check_verdict, check_goal_verdict};
ghost use Rattle.mode_rules.specs.Earlier as earlier;
ghost use Rattle.mode_rules.specs.Earlier.{without_bytes, single_pass, verdict_without, ByMarks, VerdictMoved};
ghost use Rattle.marks.specs.Searching.{look_up, Says};
ghost use Rattle.machine.specs.Substitution.{Binding, RTerm, Variable, occurs, resolve, is_bound};
ghost use Rattle.machine.specs.Unification.{places, rounds, unify};
ghost use Rattle.machine.specs.Unifiers.{Unified};
ghost use Rattle.machine.specs.Machine.{Alternative, Pending, path, is_for, clause_at, nth_clause, pile_after};
ghost use Rattle.machine.specs.Runs.{Done, Progress, Report, RunSettings, begun, run_from, resumed, run, ran, run_outcome, run_answer, run_text};
ghost use Rattle.machine.specs.Traces.{Fact, fact_clauses, with_facts, trace_fault, traced_sheet, traced_outcome};
ghost use Rattle.machine.specs.Counts.{tally};
ghost use Rattle.machine.specs.Claims.{BothZero, Beginning, EndsAfter, RunOver, TracedOver, ZeroOver};
ghost use Rattle.machine.specs.Determinacy.{Common, Determinate, NamesFirst, Pair, AtMostOneLine, PlainGoal, against, determinate, joins, judged, single};
ghost use Rattle.machine.specs.MoreSteps.{MoreStepsPublic};
ghost use Rattle.machine.specs.Earlier.{turned, run_earlier};
ghost use Rattle.machine.specs.Reached.{Reached, in_alternative};
ghost use Rattle.machine.specs.Low.{BodyShort, ClausesShort, Low};
ghost use Rattle.words.specs.Feeds.{InLines};
ghost use Rattle.output.specs.declared.results.Written.{Written};
ghost use Rattle.output.specs.Results.{run_of, bytes_of};
ghost use Rattle.output.specs.Prints.{printed_run};
ghost use Rattle.starred_cases.specs.Programs.{runner, runner_settings, runner_text};
ghost use Rattle.starred_cases.specs.Cases.{printed, expected};
ghost use Rattle.claims.specs.Examples.{at_most, plus, plus_goal, plus_line};
ghost use Rattle.format_rules.specs.Claims.{EqualExactlyButForNames, WrittenAgainTheSame, ReadBackTheSame};
ghost use Rattle.derivations.specs.Workings.{Records, replay, begun as replayed};
ghost use Rattle.derivations.specs.Derivations.{ReplaysExactly, ByteIsRight};
ghost use Rattle.derivations.specs.Outcomes.{EveryOutcomeIsRight, EveryAnswerHasWorkings};
ghost use Rattle.claims.specs.Names.{NameInside};
ghost use Rattle.claims.specs.Piles.{PathsWithin};

// ---- the marks

/// A sheet or goal that can be read is accepted if and only if Pfenning's mode rules accept it. Of a sheet is also asked that each declared predicate is
/// written, but not with the mark for a sheet stored earlier.
pub fn check_agrees_with_judgment()
    ensures sheet { (stored : Bool) (s : List ℕ) (sh : Sheet) → sheet_of s ≡ accepted sh
        → (checked_with stored s ≡ accepted sh) ↔ (WellModed sh × WrittenOrStored stored sh) }
    ensures verdict { (stored : Bool) (s : List ℕ) (sh : Sheet) → sheet_of s ≡ accepted sh
        → (verdict_with stored s ≡ Accepted (length sh.declarations) (length sh.clauses)) ↔ (WellModed sh × WrittenOrStored stored sh) }
    ensures goal { (sh : Sheet) (t : List ℕ) (g : Goal) → goal_outcome t ≡ accepted g → (checked_goal sh t ≡ accepted g) ↔ WellModedGoal sh g }
    ensures both { (s t : List ℕ) (sh : Sheet) (g : Goal) → sheet_of s ≡ accepted sh → goal_outcome t ≡ accepted g
        → (check_goal_verdict s t ≡ Accepted (length sh.declarations) (length sh.clauses))
        ↔ (WellModed sh × WrittenOrStored false sh × WellModedGoal sh g) }
{}

/// The judgment has at most one result, although its rules overlap.
pub fn judgment_has_one_result()
    ensures { (ds : List Declaration) (τ σ ρ : Known) (b : Body) → BodyModed ds τ b σ → BodyModed ds τ b ρ → length τ ≡ variables → σ ≡ ρ }
{}

/// An equation is gone over again until a pass makes nothing further ground: one pass more changes nothing, and what is left is what the judgment gives.
pub fn equation_is_gone_over_until_settled()
    ensures still { (t u : Term) (τ : Known) → length τ ≡ variables → equate t u (settle t u τ) ≡ settle t u τ }
    ensures derived { (t u : Term) (τ : Known) → length τ ≡ variables → Settling τ t u (settle t u τ) }
    ensures unique { (t u : Term) (τ σ : Known) → Settling τ t u σ → length τ ≡ variables → σ ≡ settle t u τ }
{}

/// Against the lecture's single pass: sheets and goals accepted so far are accepted still; of those refused with 9 or 10 some are now accepted and some name
/// a later place or meet a later test; no other number moves.
pub fn second_pass_moves_only_marks()
    ensures moved { (s : List ℕ) → VerdictMoved (earlier.check_verdict single_pass s) (check_verdict s) }
    ensures goal_moved { (s g : List ℕ) → VerdictMoved (earlier.check_goal_verdict single_pass s g) (check_goal_verdict s g) }
    ensures accepted { (s : List ℕ) (n m : ℕ) → earlier.check_verdict single_pass s ≡ Accepted n m → check_verdict s ≡ Accepted n m }
    ensures goal_accepted { (s g : List ℕ) (n m : ℕ) → earlier.check_goal_verdict single_pass s g ≡ Accepted n m
        → check_goal_verdict s g ≡ Accepted n m }
    ensures others { (s : List ℕ) (text : Text) (r : Refusal) → earlier.check_verdict single_pass s ≡ Refused text r → ¬ ByMarks r
        → check_verdict s ≡ Refused text r }
    ensures goal_others { (s g : List ℕ) (text : Text) (r : Refusal) → earlier.check_goal_verdict single_pass s g ≡ Refused text r → ¬ ByMarks r
        → check_goal_verdict s g ≡ Refused text r }
{}

/// Refusals 9 and 10 carry the byte of the open variable, which was 0: with this byte set to 0, the verdicts are those of before.
pub fn only_the_byte_of_9_and_10_is_new()
    ensures sheet { (s : List ℕ) → verdict_without (check_verdict s) ≡ earlier.check_verdict without_bytes s }
    ensures goal { (s g : List ℕ) → verdict_without (check_goal_verdict s g) ≡ earlier.check_goal_verdict without_bytes s g }
{}

/// The mark for a sheet stored earlier passes over 16: without it a sheet's first fault is the one with it, or 16.
pub fn mark_turns_only_16()
    ensures { (sh : Sheet) → (sheet_fault false sh ≡ sheet_fault true sh) ⊎ ((byte : ℕ) × (sheet_fault false sh ≡ some (Unwritten byte))) }
{}

/// Two numerals are one constant exactly when they are equal after leading zeros are dropped, and none is left but that of 0.
pub fn numerals_are_equal_without_zeros()
    ensures same { (s t : List ℕ) (a b : Cursor) → T (same_name (numeral_at s a).name (numeral_at t b).name)
        ↔ (trimmed (spelt s a) ≡ trimmed (spelt t b)) }
    ensures leads { (s : List ℕ) (st : Cursor) (x : ℕ) (xs : List ℕ) → (numeral_at s st).name ≡ zero_digit ∷ x ∷ xs → ⊥ }
{}

/// The name that a refusal hands back lies in the text at fault, where a caller may read it.
pub fn names_lie_in_the_text_at_fault()
    ensures check { (s : List ℕ) (t : Text) (r : Refusal) → check_verdict s ≡ Refused t r → NameInside s [] t r }
    ensures goal { (s g : List ℕ) (t : Text) (r : Refusal) → check_goal_verdict s g ≡ Refused t r → NameInside s g t r }
    ensures run { (s g : List ℕ) (asked : RunSettings) (room : ℕ) (t : Text) (r : Refusal) → run_answer (run_outcome s g asked room) ≡ Refused t r
        → NameInside s g t r }
    ensures traced { (s g trace : List ℕ) (asked : RunSettings) (room : ℕ) (t : Text) (r : Refusal)
        → run_answer (traced_outcome s g trace asked room) ≡ Refused t r → NameInside s g t r }
{}

/// Over any list of entries, repeats included, the search gives the first match and how many entries it compared, up to and with that one; or none and the
/// count of all.
pub fn search_ends_at_the_first_match()
    ensures { (text name : List ℕ) (n : ℕ) (es : List Entry) → Says text name n es (look_up text name n es) }
{}

// ---- the run

/// No result is left open: for an accepted goal over an accepted sheet, run with the mark or without, the count of open inputs is zero, and so is the count of
/// open outputs, after any number of steps from the goal alone; and so in every run, whatever its allowance, wanted answers and room, over a trace's facts too.
pub fn nothing_is_left_open()
    ensures steps { (stored : Bool) (sheet goal : List ℕ) (sh : Sheet) (g : Goal) → checked_with stored sheet ≡ accepted sh
        → checked_goal sh goal ≡ accepted g → (n : ℕ) → BothZero sh g n }
    ensures accepted { (sheet goal : List ℕ) (declarations clauses : ℕ) → check_goal_verdict sheet goal ≡ Accepted declarations clauses
        → ZeroOver false sheet goal }
    ensures runs { (sheet goal : List ℕ) (asked : RunSettings) (room : ℕ) (r : Report) (text : List ℕ)
        → run_outcome sheet goal asked room ≡ ran r text → RunOver sheet goal asked room r text }
    ensures traced { (sheet goal trace : List ℕ) (asked : RunSettings) (room : ℕ) (r : Report) (text : List ℕ)
        → traced_outcome sheet goal trace asked room ≡ ran r text → TracedOver sheet goal trace asked room r text }
{}

/// The run is the step repeated, up to the first end that applies. So its steps begin the list that the counts speak of, and a run of more steps goes on from
/// where one of fewer left it.
pub fn run_is_the_step_repeated()
    ensures ends { (sh : Sheet) (g : Goal) (allowance wanted room : ℕ)
        → EndsAfter sh g allowance wanted room (begun sh g) (run sh g allowance wanted room) }
    ensures begins { (sh : Sheet) (g : Goal) (allowance wanted room : ℕ) → Beginning sh g allowance (run sh g allowance wanted room) }
    ensures tallied { (sh : Sheet) (g : Goal) (n : ℕ) → (tally sh g n).pile ≡ pile_after sh g n }
    ensures turns { (sh : Sheet) (g : Goal) (wanted room m n : ℕ) (p : Progress)
        → run_from sh g wanted room (m + n) p ≡ resumed sh g wanted room n (run_from sh g wanted room m p) }
{}

/// The text at a smaller allowance is the beginning of the text at a larger one, and a run that ended otherwise than by `steps` gives an equal report and text
/// at every larger allowance.
pub fn more_steps_same_beginning()
    ensures traced { (sheet goal trace : List ℕ) (stored : Bool) (wanted room few many : ℕ) → 1 ≤ few → few ≤ many → many ≤ most_steps
        → MoreStepsPublic (traced_outcome sheet goal trace (record { allowance = few; wanted = wanted; stored = stored }) room)
        (traced_outcome sheet goal trace (record { allowance = many; wanted = wanted; stored = stored }) room) }
    ensures untraced { (sheet goal : List ℕ) (stored : Bool) (wanted room few many : ℕ) → 1 ≤ few → few ≤ many → many ≤ most_steps
        → MoreStepsPublic (run_outcome sheet goal (record { allowance = few; wanted = wanted; stored = stored }) room)
        (run_outcome sheet goal (record { allowance = many; wanted = wanted; stored = stored }) room) }
{}

/// The answers that change, `done` being looked for before `wanted`, are exactly those where the wanted count is reached and no alternative is left: their kind
/// turns from `wanted` to `done`. Lines, counts and steps are the same.
pub fn done_comes_before_wanted()
    ensures { (sh : Sheet) (g : Goal) (wanted room allowance : ℕ) → run sh g allowance wanted room ≡ turned (run_earlier sh g allowance wanted room) }
{}

/// Without a trace a run's text has as many lines as the run has answers; with one too it has no more bytes than there was room for.
pub fn text_has_a_line_for_each_answer()
    ensures lines { (sheet goal : List ℕ) (asked : RunSettings) (room : ℕ) (r : Report) (text : List ℕ) → run_outcome sheet goal asked room ≡ ran r text
        → InLines r.answers text }
    ensures fits { (sheet goal trace : List ℕ) (asked : RunSettings) (room : ℕ) → length (run_text (traced_outcome sheet goal trace asked room)) ≤ room }
{}

/// The test says yes exactly when no clause has a bracket and, for each pair of clauses of one predicate, their + arguments have no common instance; else it
/// names the first clause or pair that speaks against it. On a yes, and without a trace, a run of any accepted goal without brackets writes at most one line.
pub fn at_most_one_line_on_a_yes()
    ensures exactly { (sh : Sheet) → T (determinate sh) ↔ Determinate sh }
    ensures joined { (ts us : List Term) → T (joins ts us) ↔ Common ts us }
    ensures names { (sh : Sheet) (p : Pair) → against sh ≡ some p → NamesFirst sh p }
    ensures line { (sheet goal : List ℕ) → judged sheet ≡ single → PlainGoal goal → (asked : RunSettings) (room : ℕ)
        → AtMostOneLine (run_text (run_outcome sheet goal asked room)) }
    ensures answer { (sheet goal : List ℕ) → judged sheet ≡ single → PlainGoal goal → (asked : RunSettings) (room : ℕ) (r : Report)
        → run_answer (run_outcome sheet goal asked room) ≡ Ended r → r.answers ≤ 1 }
{}

/// Each record of kind 1 is a clause behind the sheet's own, in trace order: own clauses keep their numbers, and facts have those behind them. A sheet that is
/// accepted is accepted with the facts of an accepted trace, a goal over it is the same with them as without, and an empty trace is none.
pub fn facts_stand_behind_the_clauses()
    ensures own { (at : ℕ) (sh : Sheet) (facts : List Fact) (k : ℕ) → k < length sh.clauses
        → clause_at (with_facts at sh facts) (suc k) ≡ clause_at sh (suc k) }
    ensures behind { (at : ℕ) (sh : Sheet) (facts : List Fact) (k : ℕ)
        → clause_at (with_facts at sh facts) (suc (length sh.clauses + k)) ≡ nth_clause (fact_clauses at facts) k }
    ensures accepted { (stored : Bool) (sh : Sheet) (size : ℕ) (trace : List ℕ) → trace_fault sh.declarations trace ≡ none
        → sheet_fault stored sh ≡ none → sheet_fault stored (traced_sheet size trace sh) ≡ none }
    ensures goal { (at : ℕ) (sh : Sheet) (facts : List Fact) (goal : List ℕ) → checked_goal (with_facts at sh facts) goal ≡ checked_goal sh goal }
    ensures empty { (sheet goal : List ℕ) (asked : RunSettings) (room : ℕ) → traced_outcome sheet goal [] asked room ≡ run_outcome sheet goal asked room }
{}

// ---- the machine

/// Unification gives a most general unifier, and none only where there is none; more rounds change nothing.
pub fn unification_is_most_general()
    ensures general { (b : List Binding) (t u : RTerm) → Unified b t u (unify b t u) }
    ensures rounds { (n : ℕ) (b : List Binding) (t u : RTerm) → places (resolve b t) + places (resolve b u) < n → rounds n b t u ≡ unify b t u }
{}

/// In every alternative reached from a goal no bound variable is left in a term with the bindings put in, and a clause is tried with new variables: none of the
/// next copy stands in the alternative.
pub fn bindings_are_put_in_and_copies_new()
    ensures none_applies { (sh : Sheet) (g : Goal) (a : Alternative) → Reached sh g a → (t : RTerm) (v : Variable) → T (occurs v (resolve a.bindings t))
        → T (is_bound a.bindings v) → ⊥ }
    ensures new { (sh : Sheet) (g : Goal) (a : Alternative) → Reached sh g a → (i : ℕ)
        → T (in_alternative (record { copy = suc (path a); number = i }) a) → ⊥ }
{}

/// A clause that is tried has the predicate of the call that stands first.
pub fn tried_clause_is_for_the_call()
    ensures { (sh : Sheet) (g : Goal) (a : Alternative) → Reached sh g a → (c : ℕ) (at : Atom) (rest : List Pending)
        → a.literals ≡ record { copy = c; literal = call at } ∷ rest → (cl : Clause) → clause_at sh a.next ≡ some cl → T (is_for at cl) }
{}

/// How high the pile is: with j alternatives below one, j and the number of its literals left are together at most 16 for the goal and for each call of its
/// path. So a pile of an accepted goal over an accepted sheet, with a trace's facts or without, has at most 4,096 alternatives while no path is longer than
/// 255.
pub fn pile_is_low()
    ensures below { (sh : Sheet) (g : Goal) → ClausesShort sh.clauses → BodyShort g.body → (n : ℕ) → Low (pile_after sh g n) }
    ensures most { (stored : Bool) (sheet goal trace : List ℕ) (sh : Sheet) (g : Goal) → checked_with stored sheet ≡ accepted sh
        → checked_goal sh goal ≡ accepted g → (n : ℕ) → PathsWithin (pile_after (traced_sheet (length sheet) trace sh) g n)
        → length (pile_after (traced_sheet (length sheet) trace sh) g n) ≤ literals * suc longest_path }
{}

/// What the theorems above ask for can be had: by the example of RULES.
pub fn premises_can_be_met()
    ensures run { RunOver plus plus_goal (at_most 300) 4096 (record { kind = Done; answers = 1; steps = 7 }) plus_line }
    ensures line { AtMostOneLine (run_text (run_outcome plus plus_goal (at_most 65536) 4096)) }
{}

// ---- the programs

/// What the runner prints for its three files, whatever the run gives: with the text that it lends, and the answer and the bytes that `pilvaust::run_traced`
/// promises, it is the definition's output.
pub fn runner_prints_what_rules_says()
    ensures { (sheet goal trace old : List ℕ) (answer : Result Written Fault) → length old ≡ runner_text
        → run_of answer ≡ run_answer (traced_outcome sheet goal trace runner_settings runner_text)
        → bytes_of answer ≡ length (run_text (traced_outcome sheet goal trace runner_settings runner_text))
        → printed_run sheet goal answer (sets old 0 (run_text (traced_outcome sheet goal trace runner_settings runner_text)))
        ≡ runner sheet goal trace }
{}

/// The list of cases of RULES: each text with the output that stands beside it.
pub fn listed_cases_hold()
    ensures { printed ≡ expected }
{}

// ---- a sheet written afresh

/// Two sheets both written have equal output exactly when their declarations agree in order, and their clauses too, up to names of variables and leading
/// zeros of numerals. The output is accepted, and writing it afresh changes no byte. What is written reads back as the same sheet, but for places.
pub fn equal_sheets_are_written_alike()
    ensures exactly { EqualExactlyButForNames }
    ensures again { WrittenAgainTheSame }
    ensures back { ReadBackTheSame }
{}

// ---- workings of another engine

/// Where a line is told or does not fit, the workings are the records of a derivation of the goal by leftmost resolution, whose most general answer gives
/// the line. Where 17 is given, they are those of none, and its byte is the length of the longest beginning that is used up, 0 where none is.
pub fn outcomes_are_right()
    ensures { EveryOutcomeIsRight }
{}

/// The same of records and the replay of a goal by them.
pub fn replays_are_right()
    ensures exactly { (sh : Sheet) (g : Goal) (rs : Records) → ReplaysExactly sh g rs (replay sh rs (replayed g)) }
    ensures byte { (sh : Sheet) (g : Goal) (rs : Records) → ByteIsRight sh g rs (replay sh rs (replayed g)) }
{}

/// Every answer of a run without a trace and without the mark for a sheet stored earlier has workings that are accepted with the same line, given room for it.
pub fn every_answer_has_workings()
    ensures { EveryAnswerHasWorkings }
{}
