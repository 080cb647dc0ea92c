// What follows from the definitions alone: a function that states a law, and does nothing.
ghost use Rattle.std.specs.Prelude.{◌≡◌, ◌<◌, ◌∷◌, ◌++◌, [], ℕ, All, Contains, List, Option};
ghost use Rattle.hm_types.specs.declared.limits.TheConstants.{GREATEST_ID};
ghost use Rattle.hm_model.specs.Out.{IsOut};
ghost use Rattle.hm_model.specs.declared.entry.Entry.{Entry};
ghost use Rattle.hm_model.specs.declared.line.Line.{Line};
ghost use Rattle.hm_shell.specs.Alone.{AddsEntries, AnswersEach, IsAlone, alone, out_text};
ghost use Rattle.hm_shell.specs.Words.{IsPlan};

/// Words have one plan only.
pub fn plans_are_one()
    ensures { (words : List (List ℕ)) (volume other : List ℕ) (newfs another : Option ℕ) →
        IsPlan words volume newfs → IsPlan words other another →
        (volume ≡ other) × (newfs ≡ another) }
{}

/// Lines without lanes, each of a call, that a history answers one after another print what a run with
/// this history prints.
pub fn lines_by_themselves_print_a_run()
    ensures { (end : ℕ) (history : List Entry) (lines : List Line) → All IsAlone lines →
        AnswersEach end lines history → IsOut (alone lines) history end (out_text lines history) }
{}

/// A history that answers lines answers one line more with the entries of that one more.
pub fn one_line_more_is_answered()
    ensures { (lines : List Line) (history more : List Entry) (line : Line) (end next : ℕ) →
        ((l : Line) → Contains lines l → l.number < line.number) → AnswersEach end lines history →
        AddsEntries history end next line more → AnswersEach next (lines ++ line ∷ []) (history ++ more) }
{}

/// Where no id is left, a history that answers lines answers one line more as it is.
pub fn one_line_more_finds_no_id()
    ensures { (lines : List Line) (history : List Entry) (line : Line) (end : ℕ) →
        ((l : Line) → Contains lines l → l.number < line.number) → end ≡ GREATEST_ID →
        AnswersEach end lines history → AnswersEach end (lines ++ line ∷ []) history }
{}
