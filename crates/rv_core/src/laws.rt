//! Laws of the definitions, each the contract of a function that does nothing.
ghost use Rattle.std.specs.Prelude.{ℕ, Option};
ghost use Rattle.rv_judge.specs.declared.judging.Facts.{Facts};
ghost use Rattle.rv_judge.specs.Verdicts.{Ruling};
ghost use Rattle.rv_lang.specs.declared.reply.Reply.{Reply};
ghost use Rattle.rv_core.specs.Obeying.{FetchOf, StepOf, TurnOf};
ghost use Rattle.rv_core.specs.Short.{AnsweredIsMoves, CallIsMoves, ShortRangeIsFew, StillMoves, TakeIsMove};

use rv_cursor::laws::few_are_fetched;

/// A law: where a restricted index of a cursor's one FROM item had an exact estimate of at most 20 at OPEN, its trace
/// never counts more than 20 fetched records, but for one for each foreground step that found no memory. A
/// piece that is taken by itself is a move of the plan, too.
pub fn short_range_is_few()
    ensures few { ShortRangeIsFew }
    ensures take { TakeIsMove }
{
    few_are_fetched();
}

/// A law: what the calls say of the plan of a cursor in a place is such moves, where what the open cursors see stays;
/// those of a FETCH, a turn of it and a STEP that are answered found memory for each foreground step.
pub fn calls_are_moves()
    ensures any { CallIsMoves }
    ensures fetch { (most : ℕ) (would : ℕ → Facts → Ruling) → AnsweredIsMoves (FetchOf most would) }
    ensures turn { (part : Option (Reply × Reply)) (most : ℕ) (would : ℕ → Facts → Ruling) → AnsweredIsMoves (TurnOf part most would) }
    ensures step { (would : ℕ → Facts → Ruling) (done most : ℕ) → AnsweredIsMoves (StepOf would done most) }
    ensures still { StillMoves }
{
    few_are_fetched();
}
