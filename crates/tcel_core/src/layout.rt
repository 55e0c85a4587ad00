ghost use Rattle.std.specs.Prelude.{◌≡◌, ◌≤◌, ◌<◌, ◌^◌, length};
ghost use Rattle.tcel_core.specs.Cells.{all_words, place, width};

use crate::sizes::words_of;
use crate::var::Var;
use std::marker::Model;

/// Where the words of each variable begin. Contracts see it as the variables.
#[derive(Drop)]
pub(crate) struct Layout<'a> {
    vars: &'a [Var],
    // of variable v at place v, and from the last one's end on the number of all words
    places: [usize; 257],
}

impl<'a> Model for Layout<'a> {
    ghost use Rattle.std.specs.Prelude.{List};
    ghost use Rattle.tcel_core.specs.declared.var.Var.{Var};

    ghost Value = { List Var };

    ghost use Rattle.tcel_core.specs.Layout.{variables_of, IsLaidOut};

    ghost view = { variables_of };

    ghost invariant = { IsLaidOut };
}

impl<'a> Layout<'a> {
    pub(crate) fn new(vars: &'a [Var]) -> Layout<'a>
        requires few { length vars.now ≤ 256 }
        requires words { all_words vars.now < 2 ^ 63 }
        ensures { result ≡ vars.now }
    {
        let mut places = [0; 257];
        let mut words = 0;
        for v in 0..vars.len() {
            words += words_of(vars[v].kind);
            places[v + 1] = words;
        }
        for v in vars.len()..256 {
            places[v + 1] = words;
        }
        Layout { vars, places }
    }

    /// Where the words of a variable begin; those of a number of no variable behind all words.
    pub(crate) fn place(&self, var: u32) -> usize
        ensures { result ≡ place self.now var }
    {
        self.places[(var as usize).min(256)]
    }

    /// How many words a variable has; a number of no variable has none.
    pub(crate) fn width(&self, var: u32) -> usize
        ensures { result ≡ width self.now var }
    {
        let var = var as usize;
        if var < 256 {
            self.places[var + 1] - self.places[var]
        } else {
            0
        }
    }
}
