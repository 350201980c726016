ghost use Rattle.std.specs.Prelude.{◌≡◌, ◌↔◌, ℕ, List};
ghost use Rattle.certify.specs.Grammar.{IsLogLine};
ghost use Rattle.certify.specs.Line.{line_of};
ghost use Rattle.certify.specs.declared.line.Line.{Line};

/// A theorem on all lines, whose body does nothing: by the grammar each whole line is exactly one
/// thing, which is the one that a log is read by.
pub fn each_line_is_one_thing()
    ensures { (text : List ℕ) (line : Line) → (IsLogLine text line) ↔ (line_of text ≡ line) }
{}
