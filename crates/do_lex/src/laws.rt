//! Laws of the lexical grammar, over all scripts: functions without a body, for their clauses.
ghost use Rattle.std.specs.Prelude.{◌≡◌, ℕ, List, Option};
ghost use Rattle.do_lex.specs.Cut.{IsCut};
ghost use Rattle.do_lex.specs.Next.{Answer, IsNext};
ghost use Rattle.do_lex.specs.declared.fault.LexFault.{LexFault};
ghost use Rattle.do_lex.specs.declared.pieces.Span.{Span};

/// A script gives one answer at a place.
pub fn one_answer()
    ensures { (text : List ℕ) (at : ℕ) (a b : Answer) → IsNext text at a → IsNext text at b → a ≡ b }
{}

/// A script has one list of tokens, and one end or fault behind them.
pub fn one_cut()
    ensures { (text : List ℕ) (at : ℕ) (xs ys : List Span) (a b : Option LexFault)
        → IsCut text at xs a → IsCut text at ys b → (xs ≡ ys) × (a ≡ b) }
{}
