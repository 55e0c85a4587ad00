ghost use Rattle.std.specs.Prelude.{◌≡◌, List, map, Option, option_map};
ghost use Rattle.tcel_num.specs.declared.at.At.{At};
ghost use Rattle.tcel_num.specs.declared.op.Op.{Op};
ghost use Rattle.tcel_tree.specs.Language.{binary, choice};
ghost use Rattle.tcel_tree.specs.Plain.{plain_expr, plain_block, plain_program, plain_stmt, plain_task, branch_of};
ghost use Rattle.tcel_tree.specs.Unplaced.{unplaced_program, unplaced_task};
ghost use Rattle.tcel_tree.specs.declared.expr.Expr.{Expr};
ghost use Rattle.tcel_tree.specs.declared.expr.ExprKind.TheVariants.{Binary};
ghost use Rattle.tcel_tree.specs.declared.stmt.Stmt.{Stmt};
ghost use Rattle.tcel_tree.specs.declared.stmt.StmtKind.TheVariants.{If};
ghost use Rattle.tcel_tree.specs.declared.task.Program.{Program};

/// What programs are as plain data, with places and without.
pub fn plain_laws()
    ensures program { (p : Program) → plain_program p ≡ map plain_task p.tasks }
    ensures unplaced { (p : Program) → unplaced_program (plain_program p) ≡ map unplaced_task (map plain_task p.tasks) }
    ensures binary { (at : At) (op : Op) (a b : Expr) → plain_expr (record { at = at; what = Binary op a b }) ≡ binary at op (plain_expr a) (plain_expr b) }
    ensures choice { (at : At) (test : Expr) (held : List Stmt) (other : Option (List Stmt)) → plain_stmt (record { at = at; what = If test held other })
        ≡ choice at (plain_expr test) (plain_block held) (branch_of (option_map (map plain_stmt) other)) }
{}
