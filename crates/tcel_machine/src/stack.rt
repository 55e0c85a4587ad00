ghost use Rattle.std.specs.Prelude.{◌≡◌, ◌<◌, [], ◌∷◌, length};

use std::marker::Model;

const DEEPEST: usize = 128;

/// A task's stack, with room for 128 words. Contracts see it as its words, the top first.
#[derive(Debug, Drop)]
pub(crate) struct Stack {
    words: [i64; 128],
    depth: usize,
}

impl Model for Stack {
    ghost use Rattle.std.specs.Prelude.{ℤ, List};

    ghost Value = { List ℤ };

    ghost use Rattle.tcel_machine.specs.Stack.{words_of, IsKept};

    ghost view = { words_of };

    ghost invariant = { IsKept };
}

impl Stack {
    pub(crate) fn new() -> Stack
        ensures { result ≡ [] }
    {
        Stack {
            words: [0; DEEPEST],
            depth: 0,
        }
    }

    pub(crate) fn push(&mut self, value: i64)
        requires { length self.old < 128 }
        ensures { self.new ≡ value ∷ self.old }
    {
        self.words[self.depth] = value;
        self.depth += 1;
    }

    pub(crate) fn pop(&mut self) -> i64
        requires { 0 < length self.old }
        ensures { self.old ≡ result ∷ self.new }
    {
        self.depth -= 1;
        self.words[self.depth]
    }
}
