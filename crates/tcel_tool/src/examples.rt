ghost use Rattle.std.specs.Prelude.{◌≡◌, ◌≢◌, ◌≤◌, ℕ, List, [], ◌∷◌, codes, false, true};
ghost use Rattle.tcel_core.specs.Examples.{counter};
ghost use Rattle.tcel_tool.specs.CheckCommand.{RefusesTasks};
ghost use Rattle.std.specs.List.{concat};
ghost use Rattle.tcel_num.specs.Plan.{Plan};
ghost use Rattle.tcel_tool.specs.Answer.{IsDecided};
ghost use Rattle.tcel_tool.specs.Report.{is_sliced};
ghost use Rattle.tcel_tool.specs.ReportExamples.{last_sliced, plan_text, wanted_text};
ghost use Rattle.tcel_tool.specs.CommandExamples.{analyse_line, check_line, compile_line, fewest_line, format_line, late_point, long_hyper};
ghost use Rattle.tcel_tool.specs.CommandExamples.{again, linked_line, make_line, many_cells, many_tasks, mean_line, nothing_told, too_many_made, trial_line};
ghost use Rattle.tcel_tool.specs.CommandExamples.{run_line, same_priority, seventeen, sixteen, timeline_line, too_deep, too_many, too_many_frames, unexpected};
ghost use Rattle.tcel_tool.specs.MeanExamples.{alarm_pieces, alarm_text, both_pieces, both_text};
ghost use Rattle.tcel_tool.specs.SummaryExamples.{nothing_text, nothing_wanted, shown_text, shown_wanted};
ghost use Rattle.tcel_tool.specs.Commands.{HasForm, HaveNoForm};
ghost use Rattle.tcel_tool.specs.FaultLine.{fault_pieces};
ghost use Rattle.tcel_tool.specs.SpanExamples.{full, full_idle, full_short, full_spans, full_split, idle, idle_lines, idle_spans};
ghost use Rattle.tcel_tool.specs.SpanExamples.{preempted, preempted_lines, preempted_spans, set};
ghost use Rattle.tcel_tool.specs.Spans.{AreLines, AreSpans};
ghost use Rattle.tcel_tool.specs.FewestCommand.{IsMany};
ghost use Rattle.tcel_tool.specs.FewestExamples.{full_text, full_wanted, lower_text, lower_wanted, none_text, none_wanted, thirteen, twelve};
ghost use Rattle.tcel_tool.specs.JudgeExamples.{bad_line, judge_line, missing_end, missing_event, overdue_line};
ghost use Rattle.tcel_tool.specs.declared.command.Command.TheVariants.{Judge};
ghost use Rattle.tcel_tool.specs.declared.command.Command.TheVariants.{Analyse, Check, Compile, Fewest, Format, Linked, Make, Mean, Run, Timeline, Trial};
ghost use Rattle.tcel_tool.specs.declared.spans.Span.{Span};
ghost use Rattle.tcel_tool.specs.declared.status.Status.{Status};

/// Words that are a command's and words that are none, a status that the words alone decide, and fault lines (docs/commands.md).
pub fn command_examples()
    ensures compile { HasForm Compile compile_line }
    ensures format { HasForm Format format_line }
    ensures check { HasForm Check check_line }
    ensures run { HasForm Run (run_line (codes "0010")) }
    ensures mean { HasForm Mean (mean_line (codes "2")) }
    ensures analyse { HasForm Analyse analyse_line }
    ensures timeline { HasForm Timeline (timeline_line (codes "6")) }
    ensures linked { HasForm Linked (linked_line (codes "40")) }
    ensures fewest { HasForm Fewest fewest_line }
    ensures make { HasForm Make (make_line (codes "016")) }
    ensures no_tasks { HaveNoForm (make_line (codes "00")) }
    ensures trial { HasForm Trial (trial_line (codes "16") (codes "0")) }
    ensures nothing_tried { HaveNoForm (trial_line (codes "0") (codes "5")) }
    ensures other_command { HasForm Compile format_line → ⊥ }
    ensures eighteen_digits { HasForm Run (run_line (codes "999999999999999999")) }
    ensures nineteen_digits { HaveNoForm (run_line (codes "1000000000000000000")) }
    ensures no_digits { HaveNoForm (run_line []) }
    ensures sign { HaveNoForm (run_line (codes "+1")) }
    ensures few_words { HaveNoForm (codes "compile" ∷ codes "a" ∷ []) }
    ensures many_words { HaveNoForm (codes "format" ∷ codes "a" ∷ codes "b" ∷ []) }
    ensures option { HaveNoForm (codes "--help" ∷ []) }
    ensures no_words { HaveNoForm [] }
    ensures most_ticks { IsDecided Run nothing_told (run_line (codes "10000000")) too_many → ⊥ }
    ensures too_many_ticks { IsDecided Run nothing_told (run_line (codes "10000001")) too_many }
    ensures too_far { IsDecided Linked nothing_told (linked_line (codes "10000001")) too_many }
    ensures too_long { IsDecided Timeline nothing_told (timeline_line (codes "10000001")) too_many }
    ensures line { concat (fault_pieces format_line unexpected []) ≡ codes "program 1:38: unexpected token\n" }
    ensures again { concat (fault_pieces (linked_line (codes "40")) again []) ≡ codes "links 2: input twice\n" }
    ensures deep { concat (fault_pieces format_line too_deep []) ≡ codes "limit: operators above 64 at 12:304\n" }
    ensures fault { concat (fault_pieces check_line same_priority []) ≡ codes "program 2:17: same priority\n" }
    ensures late { concat (fault_pieces compile_line late_point (codes "lo")) ≡ codes "rejected: late task lo frame 1 point within 3 response 70 bound 69\n" }
    ensures cells { concat (fault_pieces compile_line many_cells (codes "t")) ≡ codes "limit: cells 72001 above 65536 in task t\n" }
    ensures long { concat (fault_pieces compile_line long_hyper (codes "b")) ≡ codes "limit: hyperperiod above 1000000000000 at task b\n" }
    ensures limit { concat (fault_pieces check_line many_tasks []) ≡ codes "limit: tasks above 16 at 1:116\n" }
    ensures most_frames { IsDecided Mean nothing_told (mean_line (codes "10000")) too_many_frames → ⊥ }
    ensures too_many_frames { IsDecided Mean nothing_told (mean_line (codes "10001")) too_many_frames }
    ensures tasks_first { IsDecided Trial nothing_told (trial_line (codes "17") (codes "10000001")) too_many_made }
    ensures then_ticks { IsDecided Trial nothing_told (trial_line (codes "16") (codes "10000001")) too_many }
    ensures most_made { IsDecided Make nothing_told (make_line (codes "16")) too_many_made → ⊥ }
    ensures too_many_made { IsDecided Make nothing_told (make_line (codes "17")) too_many_made }
    ensures made { concat (fault_pieces (make_line (codes "17")) too_many_made []) ≡ codes "limit: made tasks 17 above 16\n" }
    ensures frames { concat (fault_pieces (mean_line (codes "10001")) too_many_frames []) ≡ codes "limit: mean frames 10001 above 10000\n" }
{}

/// A program that `check` refuses, and one in which it finds nothing (docs/commands.md).
pub fn check_examples()
    ensures many { RefusesTasks seventeen many_tasks }
    ensures none { (status : Status) → RefusesTasks sixteen status → ⊥ }
{}

/// What `mean` writes for sets of one task and of two (docs/formats.md).
pub fn mean_examples()
    ensures alarm { alarm_pieces 2 ≡ alarm_text ∷ [] }
    ensures no_frames { alarm_pieces 0 ≡ [] }
    ensures both { both_pieces ≡ both_text ∷ [] }
{}

/// Lines of a report, and which tasks are sliced where one is (docs/formats.md).
pub fn report_examples()
    ensures lines { plan_text ≡ wanted_text }
    ensures whole { is_sliced last_sliced 0 ≡ false }
    ensures sliced { is_sliced last_sliced 1 ≡ true }
{}

/// Between two times the schedule of any plans has one list of spans, in which neighbours serve different tasks, or a task and none (docs/formats.md).
pub fn spans_law()
    ensures some { (plans : List Plan) (from to : ℕ) → from ≤ to → (spans : List Span) × AreSpans plans from to spans }
    ensures differ { (plans : List Plan) (from to : ℕ) (a b : Span) (rest : List Span) → AreSpans plans from to (a ∷ b ∷ rest) → a.task ≢ b.task }
    ensures one { (plans : List Plan) (from to : ℕ) (a b : List Span) → AreSpans plans from to a → AreSpans plans from to b → a ≡ b }
{}

/// Spans of schedules, lists that are none, and their lines (docs/formats.md).
pub fn timeline_examples()
    ensures full { AreSpans full 0 6 full_spans }
    ensures split { AreSpans full 0 6 full_split → ⊥ }
    ensures not_idle { AreSpans full 0 6 full_idle → ⊥ }
    ensures short { AreSpans full 0 6 full_short → ⊥ }
    ensures preempted { AreSpans preempted 0 16 preempted_spans }
    ensures idle { AreSpans idle 0 9 idle_spans }
    ensures no_ticks { AreSpans idle 0 0 [] }
    ensures preempted_lines { AreLines set preempted 0 16 preempted_lines }
    ensures idle_lines { AreLines set idle 0 9 idle_lines }
    ensures no_lines { AreLines set idle 0 0 [] }
{}

/// What `fewest` writes for a task and one above it: the lower one is sliced, both are, or nothing fits; and its limit (docs/formats.md).
pub fn fewest_examples()
    ensures lower { lower_text ≡ lower_wanted }
    ensures full { full_text ≡ full_wanted }
    ensures none { none_text ≡ none_wanted }
    ensures twelve { IsMany twelve thirteen → ⊥ }
    ensures one_more { IsMany (counter ∷ twelve) thirteen }
    ensures line { concat (fault_pieces fewest_line thirteen []) ≡ codes "limit: fewest tasks 13 above 12\n" }
{}

/// Words of `judge`, and the lines of breaches and of a faulty trace (docs/commands.md).
pub fn judge_examples()
    ensures form { HasForm Judge (judge_line (codes "10")) }
    ensures few_words { HaveNoForm (codes "judge" ∷ codes "a" ∷ codes "b" ∷ codes "c" ∷ codes "10" ∷ []) }
    ensures too_long { IsDecided Judge nothing_told (judge_line (codes "10000001")) too_many }
    ensures line { concat (fault_pieces (judge_line (codes "10")) overdue_line []) ≡ codes "trace 1: overdue\n" }
    ensures event { concat (fault_pieces (judge_line (codes "10")) missing_event (codes "t")) ≡ codes "trace: missing event 2 of frame 3 of task t\n" }
    ensures end { concat (fault_pieces (judge_line (codes "10")) missing_end (codes "t")) ≡ codes "trace: missing end of frame 0 of task t\n" }
    ensures bad { concat (fault_pieces (judge_line (codes "10")) bad_line []) ≡ codes "trace 1: bad line\n" }
{}

/// What `trial` writes of a run's entries, and of none (docs/formats.md).
pub fn summary_examples()
    ensures shown { shown_text ≡ shown_wanted }
    ensures nothing { nothing_text ≡ nothing_wanted }
{}
