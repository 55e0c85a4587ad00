ghost use Rattle.std.specs.Prelude.{◌≡◌, ◌<◌, ◌^◌, if◌then◌else◌};
ghost use Rattle.tcel_core.specs.Cells.{all_words, words_of};
ghost use Rattle.tcel_core.specs.Frames.{is_state, state_words};

use crate::var::{Keep, Var, VarKind};

/// How many words a variable of this kind has.
pub(crate) fn words_of(kind: VarKind) -> usize
    ensures { result ≡ words_of kind }
{
    match kind {
        VarKind::Int | VarKind::Bool => 1,
        VarKind::Array(length) => length as usize,
    }
}

/// How many words the variables have together.
pub(crate) fn all_words(vars: &[Var]) -> usize
    requires { all_words vars.now < 2 ^ 63 }
    ensures { result ≡ all_words vars.now }
{
    let mut words = 0;
    for var in vars {
        words += words_of(var.kind);
    }
    words
}

/// How many words the state variables have together.
pub(crate) fn state_words(vars: &[Var]) -> usize
    requires { all_words vars.now < 2 ^ 63 }
    ensures { result ≡ state_words vars.now }
{
    let mut words = 0;
    for var in vars {
        words += words_of_state(var);
    }
    words
}

fn words_of_state(var: &Var) -> usize
    ensures { result ≡ (if is_state var.now.keep then words_of var.now.kind else 0) }
{
    match var.keep {
        Keep::State => words_of(var.kind),
        Keep::Local | Keep::Temp => 0,
    }
}
