ghost use Rattle.std.specs.Prelude.{◌≡◌, ◌++◌, List, ℕ, length, map};
ghost use Rattle.tcel_core.specs.Language.{Block, joined};
ghost use Rattle.tcel_core.specs.Meaning.{exec};
ghost use Rattle.tcel_core.specs.Outcome.{Memory, then_run};
ghost use Rattle.tcel_core.specs.Plain.{block_of, plain_body, plain_set, plain_stmt, plain_task};
ghost use Rattle.tcel_core.specs.declared.body.Body.{Body};
ghost use Rattle.tcel_core.specs.declared.set.CoreTask.{CoreTask};
ghost use Rattle.tcel_core.specs.declared.set.Set.{Set};
ghost use Rattle.tcel_core.specs.Promises.{Behavior, Promise, first_promises, promises};
ghost use Rattle.tcel_core.specs.declared.var.Var.{Var};

/// What sets, tasks and bodies are as plain data.
pub fn plain_laws()
    ensures set { (s : Set) → plain_set s ≡ map plain_task s.tasks }
    ensures task { (t : CoreTask) → (plain_task t).body ≡ plain_body t.body }
    ensures body { (b : Body) → plain_body b ≡ block_of (map plain_stmt b.list) }
{}

/// Statements that follow others start from what those leave.
pub fn meaning_laws()
    ensures { (a b : Block) (vars : List Var) (m : Memory) → exec (joined a b) vars m ≡ then_run (exec a vars m) (exec b vars) }
{}

/// What begins the entries of some number of frames begins those of all frames for ever.
pub fn trace_laws()
    ensures { (b : Behavior) (n : ℕ) (ps rest : List Promise) → promises b n ≡ ps ++ rest → first_promises b (length ps) ≡ ps }
{}
