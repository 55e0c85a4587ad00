ghost use Rattle.std.specs.Prelude.{◌≡◌};
ghost use Rattle.tcel_core.specs.Kept.{stands_around};
ghost use Rattle.tcel_core.specs.Plain.{plain_body};
ghost use Rattle.tcel_flow.specs.Shape.{AreSteps, places};

use crate::shape::Flow;
use crate::step::Step;
use tcel_core::CoreTask;

/// Whether the test is one around the item: that of an `if` in which the item stands (docs/slicing.md).
pub fn stands_around(task: &CoreTask, flow: &Flow, item: u32, test: u32) -> bool
    requires { AreSteps flow.now.shape (places (plain_body task.now.body)) }
    ensures { result ≡ stands_around (plain_body task.now.body) item test }
{
    let _ = task;
    let mut depth: usize = 0;
    for step in flow.shape.as_slice() {
        match step {
            Step::Item { id, .. } => {
                if depth > 0 && *id == item {
                    return true;
                }
            }
            Step::Open { test: id, .. } => {
                if depth > 0 || *id == test {
                    depth += 1;
                }
            }
            Step::Middle => {}
            Step::Close => {
                if depth > 0 {
                    depth -= 1;
                }
            }
        }
    }
    false
}
