// What follows from the definitions alone: each function states one law, and does nothing.
ghost use Rattle.std.specs.Prelude.{◌≡◌, ℕ, List};
ghost use Rattle.hm_model.specs.declared.command.Command.{Command};
ghost use Rattle.hm_model.specs.declared.line.Line.{Line};
ghost use Rattle.hm_model.specs.Script.{Gives, IsScriptOf, IsFirstBadLine};

/// A line gives one command only, in one lane.
pub fn a_line_gives_one_command()
    ensures { (text : List ℕ) (m n : ℕ) (a b : Command) →
        Gives text m a → Gives text n b → (m ≡ n) × (a ≡ b) }
{}

/// Bytes are one script only.
pub fn blocks_are_one()
    ensures { (bytes : List ℕ) (a b : List (List Line)) →
        IsScriptOf bytes a → IsScriptOf bytes b → a ≡ b }
{}

/// Bytes have one first bad line only.
pub fn first_bad_lines_are_one()
    ensures { (bytes : List ℕ) (a b : ℕ) → IsFirstBadLine bytes a → IsFirstBadLine bytes b → a ≡ b }
{}

/// No bytes are a script and have a bad line too.
pub fn no_script_has_a_bad_line()
    ensures { (bytes : List ℕ) (blocks : List (List Line)) (number : ℕ) →
        IsScriptOf bytes blocks → IsFirstBadLine bytes number → ⊥ }
{}
