ghost use Rattle.std.specs.Prelude.{◌≡◌, ◌++◌, [], ◌∷◌, map};
ghost use Rattle.tcel_show.specs.Examples.{statements, stmt_text, task, task_text};
ghost use Rattle.tcel_show.specs.Text.{canonical_text};

/// How some statements and tasks are written (docs/language.md).
pub fn text_examples()
    ensures statements { map (λ e. stmt_text e.0) statements ≡ map (λ e. e.1) statements }
    ensures task { canonical_text (task ∷ []) ≡ task_text }
    ensures tasks { canonical_text (task ∷ task ∷ []) ≡ task_text ++ task_text }
    ensures none { canonical_text [] ≡ [] }
{}
