ghost use Rattle.tcel_driver.specs.Laws.{ChoicesAreMade, ChoicesAreOne, FormsAreGiven, FormsAreOne, RefusalsAreOne};

/// Of a set of tasks and a table of costs there is one choice or one cause of refusal, and likewise its
/// forms or one cause that forbids them; but for want of memory (docs/analysis.md).
pub fn one_answer()
    ensures refusals { RefusalsAreOne }
    ensures made { ChoicesAreMade }
    ensures choices { ChoicesAreOne }
    ensures given { FormsAreGiven }
    ensures forms { FormsAreOne }
{}
