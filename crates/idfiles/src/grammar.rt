// What the grammar of id files says by itself.
ghost use Rattle.std.specs.Prelude.{◌≡◌, ◌↔◌, ℕ, List};
ghost use Rattle.idfiles.specs.Grammar.{IdFile};
ghost use Rattle.idfiles.specs.Lines.{lines_of};
ghost use Rattle.idfiles.specs.declared.line.Line.{Line};

/// A theorem on all files, whose body does nothing: by the grammar each file has exactly one list
/// of lines, which is the one that its records and its first fault are defined by.
pub fn each_file_has_one_list_of_lines()
    ensures { (bytes : List ℕ) (lines : List Line) →
        (IdFile bytes lines) ↔ (lines_of bytes ≡ lines) }
{}
