ghost use Rattle.std.specs.Prelude.{◌≡◌, [], ◌∷◌, ◌++◌, None, Some, true, false, codes};
ghost use Rattle.tcel_num.specs.declared.op.Op.{Op};
ghost use Rattle.tcel_check.specs.declared.fail.CheckKind.TheVariants.{Twice, Unknown, WrongType, NotAPort, WindowInLoop, LoopDepth, SamePriority, BadBound};
ghost use Rattle.tcel_check.specs.declared.fail.LimitKind.TheVariants.{Tasks, Variables, Words, Nodes, Windows};
ghost use Rattle.tcel_check.specs.Checked.{set_of};
ghost use Rattle.tcel_check.specs.Examples.{at, placed, decl, int_local, task, one, found, declared, x, n, b, num, to, to_at};
ghost use Rattle.tcel_check.specs.Examples.{take_in, put_out, test, loop_of, repeat, clauses, do_block};
ghost use Rattle.tcel_check.specs.Examples.{loops, same_ports, arrays, blocks, tasks_to, two_tasks, two_core_tasks};
ghost use Rattle.tcel_check.specs.Marks.{fault, limit, precedes};
ghost use Rattle.tcel_check.specs.Rows.{many_names, many_nodes, marks, task_marks};
ghost use Rattle.tcel_tree.specs.declared.task.DeclKind.{DeclKind};
ghost use Rattle.tcel_tree.specs.Language.{truth, element, unary, binary, done};

/// What the table of faults says of names and types (docs/language.md).
pub fn name_examples()
    ensures sound { found (to (codes "n") (binary (at 35) Op.Add (n 34) (element (at 36) (codes "a") (n 37)))) ≡ [] }
    ensures unknown_value { found (to (codes "n") (x 35 (codes "z"))) ≡ fault Unknown (at 35) ∷ [] }
    ensures unknown_target { found (to (codes "z") (truth (at 35) true)) ≡ fault Unknown (at 30) ∷ [] }
    ensures unknown_array { found (to_at (codes "z") (b 34) (truth (at 35) true))
        ≡ fault Unknown (at 30) ∷ fault WrongType (at 34) ∷ fault WrongType (at 35) ∷ [] }
    ensures unknown_port { found (take_in (codes "n") (codes "z")) ≡ fault Unknown (at 32) ∷ [] }
    ensures unknown_output { found (put_out (n 35) (codes "z")) ≡ fault Unknown (at 39) ∷ [] }
    ensures port_as_value { found (to (codes "n") (x 35 (codes "s"))) ≡ fault WrongType (at 35) ∷ [] }
    ensures port_assigned { found (to (codes "o") (num 35 1)) ≡ fault WrongType (at 30) ∷ [] }
    ensures array_as_value { found (to (codes "n") (x 35 (codes "a"))) ≡ fault WrongType (at 35) ∷ [] }
    ensures array_assigned { found (to (codes "a") (num 35 1)) ≡ fault WrongType (at 30) ∷ [] }
    ensures scalar_with_index { found (to_at (codes "n") (num 34 1) (num 35 2)) ≡ fault WrongType (at 30) ∷ [] }
    ensures bool_to_int { found (to (codes "n") (b 35)) ≡ fault WrongType (at 35) ∷ [] }
    ensures int_to_bool { found (to (codes "b") (num 35 1)) ≡ fault WrongType (at 35) ∷ [] }
    ensures bool_to_bool { found (to (codes "b") (binary (at 35) Op.Less (n 34) (num 36 1))) ≡ [] }
    ensures index { found (to_at (codes "a") (b 34) (num 35 1)) ≡ fault WrongType (at 34) ∷ [] }
    ensures sent { found (put_out (b 35) (codes "o")) ≡ fault WrongType (at 35) ∷ [] }
    ensures int_sent { found (put_out (n 35) (codes "o")) ≡ [] }
    ensures tested { found (test (n 35)) ≡ fault WrongType (at 35) ∷ [] }
    ensures bool_tested { found (test (b 35)) ≡ [] }
    ensures repeated { found (repeat (num 35 1) done) ≡ fault WrongType (at 35) ∷ [] }
    ensures operands { found (to (codes "b") (binary (at 35) Op.And (n 34) (unary (at 36) Op.Not (b 37)))) ≡ fault WrongType (at 34) ∷ [] }
    ensures result { found (to (codes "n") (binary (at 35) Op.Equal (n 34) (num 36 1))) ≡ fault WrongType (at 35) ∷ [] }
    ensures negated { found (to (codes "n") (unary (at 35) Op.Neg (b 36))) ≡ fault WrongType (at 36) ∷ [] }
    ensures received { found (take_in (codes "n") (codes "s")) ≡ [] }
    ensures bool_received { found (take_in (codes "b") (codes "s")) ≡ fault WrongType (at 31) ∷ [] }
    ensures array_received { found (take_in (codes "a") (codes "s")) ≡ fault WrongType (at 31) ∷ [] }
    ensures counted_by_bool { found (loop_of (codes "b") 3 done) ≡ fault WrongType (at 31) ∷ [] }
    ensures from_output { found (take_in (codes "n") (codes "o")) ≡ fault NotAPort (at 32) ∷ [] }
    ensures from_variable { found (take_in (codes "n") (codes "b")) ≡ fault NotAPort (at 32) ∷ [] }
    ensures to_input { found (put_out (n 35) (codes "s")) ≡ fault NotAPort (at 39) ∷ [] }
{}

/// What it says of blocks, loops and numbers.
pub fn bound_examples()
    ensures alone { found (loops 0 (do_block (clauses None None None) done)) ≡ [] }
    ensures in_loop { found (loops 1 (do_block (clauses None None None) done)) ≡ fault WindowInLoop (at 40) ∷ [] }
    ensures loop_in_block { found (do_block (clauses None None None) (one (loops 1 (test (b 35))))) ≡ [] }
    ensures three_loops { found (loops 3 (test (b 35))) ≡ [] }
    ensures four_loops { found (loops 4 (test (b 35))) ≡ fault LoopDepth (at 51) ∷ [] }
    ensures five_loops { found (loops 4 (repeat (b 35) done)) ≡ fault LoopDepth (at 51) ∷ fault LoopDepth (at 33) ∷ [] }
    ensures least_turns { found (loop_of (codes "n") 1 done) ≡ [] }
    ensures most_turns { found (loop_of (codes "n") 4096 done) ≡ [] }
    ensures no_turns { found (loop_of (codes "n") 0 done) ≡ fault BadBound (at 32) ∷ [] }
    ensures many_turns { found (loop_of (codes "n") 4097 done) ≡ fault BadBound (at 32) ∷ [] }
    ensures least_times { found (do_block (clauses (Some (placed 41 1)) (Some (placed 42 1)) (Some (placed 43 1))) done) ≡ [] }
    ensures most_time { found (do_block (clauses (Some (placed 41 1000000000)) None None) done) ≡ [] }
    ensures times { found (do_block (clauses (Some (placed 41 0)) (Some (placed 42 1000000001)) (Some (placed 43 0))) done)
        ≡ fault BadBound (at 41) ∷ fault BadBound (at 42) ∷ fault BadBound (at 43) ∷ [] }
    ensures priorities { task_marks (task (codes "t") 1000 [] 1 done) ≡ [] }
    ensures no_priority { task_marks (task (codes "t") 0 [] 1 done) ≡ fault BadBound (at 2) ∷ [] }
    ensures high_priority { task_marks (task (codes "t") 1001 [] 1 done) ≡ fault BadBound (at 2) ∷ [] }
    ensures no_period { task_marks (task (codes "t") 1 [] 0 done) ≡ fault BadBound (at 3) ∷ [] }
    ensures long_period { task_marks (task (codes "t") 1 [] 1000000001 done) ≡ fault BadBound (at 3) ∷ [] }
    ensures deadline { task_marks (record (task (codes "t") 1 [] 9 done) { finish = Some (placed 4 0) }) ≡ fault BadBound (at 4) ∷ [] }
    ensures least_size { declared (arrays (1 ∷ [])) ≡ [] }
    ensures no_size { declared (arrays (0 ∷ [])) ≡ fault BadBound (at 71) ∷ [] }
    ensures large_size { declared (arrays (4097 ∷ [])) ≡ fault BadBound (at 71) ∷ [] }
{}

/// What it says of declarations and tasks, and of limits.
pub fn limit_examples()
    ensures twice { declared (decl 11 (codes "s") DeclKind.Input ∷ decl 12 (codes "n") int_local ∷ decl 13 (codes "s") int_local ∷ [])
        ≡ fault Twice (at 13) ∷ [] }
    ensures ports { declared (same_ports 3) ≡ fault Twice (at 101) ∷ fault Twice (at 102) ∷ [] }
    ensures names { many_names (task (codes "t") 1 (same_ports 256) 9 done) ≡ [] }
    ensures too_many_names { many_names (task (codes "t") 1 (same_ports 258) 9 done) ≡ limit Variables (at 356) ∷ [] }
    ensures nodes { many_nodes (task (codes "t") 1 [] 9 (blocks 4000)) ≡ [] }
    ensures too_many_nodes { many_nodes (task (codes "t") 1 [] 9 (blocks 4002)) ≡ limit Nodes (at 5000) ∷ [] }
    ensures words { declared (arrays (4096 ∷ [])) ≡ [] }
    ensures many_words { declared (decl 69 (codes "n") int_local ∷ arrays (4096 ∷ [])) ≡ limit Words (at 70) ∷ [] }
    ensures no_words { declared (arrays (4096 ∷ []) ++ (decl 72 (codes "p") DeclKind.Input ∷ [])) ≡ [] }
    ensures past_words { declared (arrays (4096 ∷ []) ++ (decl 72 (codes "n") int_local ∷ decl 73 (codes "m") int_local ∷ []))
        ≡ limit Words (at 72) ∷ [] }
    ensures windows { task_marks (task (codes "t") 1 [] 9 (blocks 31)) ≡ [] }
    ensures many_windows { task_marks (task (codes "t") 1 [] 9 (blocks 33)) ≡ limit Windows (at 1031) ∷ [] }
    ensures tasks { marks (tasks_to 16) ≡ [] }
    ensures many_tasks { marks (tasks_to 17) ≡ limit Tasks (at 116) ∷ [] }
    ensures same_names { marks (task (codes "t") 1 [] 9 done ∷ task (codes "t") 2 [] 9 done ∷ []) ≡ fault Twice (at 1) ∷ [] }
    ensures same_priorities { marks (task (codes "t") 5 [] 9 done ∷ task (codes "u") 6 [] 9 done ∷ task (codes "v") 5 [] 9 done ∷ [])
        ≡ fault SamePriority (at 2) ∷ [] }
    ensures two_tasks { marks (task (codes "t") 5 (same_ports 1) 9 done ∷ task (codes "u") 6 (same_ports 1) 9 done ∷ []) ≡ [] }
    ensures other_task { marks (task (codes "t") 5 (same_ports 1) 9 done ∷ task (codes "u") 6 [] 9 (one (put_out (num 35 1) (codes "p"))) ∷ [])
        ≡ fault Unknown (at 39) ∷ [] }
{}

/// Which of two marks is answered: the earlier place, and at one place the earlier row.
pub fn order_examples()
    ensures lines { precedes (fault BadBound (record { line = 2; column = 9 })) (limit Tasks (record { line = 3; column = 1 })) ≡ true }
    ensures columns { precedes (fault BadBound (at 8)) (limit Tasks (at 9)) ≡ true }
    ensures later { precedes (limit Tasks (at 9)) (fault BadBound (at 8)) ≡ false }
    ensures rows { precedes (limit Windows (at 9)) (fault WindowInLoop (at 9)) ≡ true }
    ensures later_row { precedes (fault SamePriority (at 9)) (fault LoopDepth (at 9)) ≡ false }
    ensures itself { precedes (fault Twice (at 9)) (fault Twice (at 9)) ≡ false }
{}

/// The core tasks of two tasks without faults, in falling priority, with their names and statements numbered.
pub fn set_examples()
    ensures faultless { marks two_tasks ≡ [] }
    ensures set { set_of two_tasks ≡ two_core_tasks }
{}
