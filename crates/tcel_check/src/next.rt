ghost use Rattle.std.specs.Prelude.{◌≡◌, ◌≤◌};
ghost use Rattle.tcel_check.specs.Checked.{behind_do, behind_if, behind_item, do_number, if_number, item_number};
ghost use Rattle.tcel_check.specs.Keys.{next_in};
ghost use Rattle.tcel_check.specs.Rooms.{used};

/// The numbers of the next item, `if` and `do`. In a loop nothing is numbered.
#[derive(Clone, Copy, Debug)]
pub enum Next {
    Outside { item: u32, test: u32, window: u32 },
    InLoop,
}

impl Next {
    /// The number of an item.
    pub fn item(&mut self) -> u32
        requires { used (next_in self.old) ≤ 4000 }
        ensures number { result ≡ item_number (next_in self.old) }
        ensures behind { next_in self.new ≡ behind_item (next_in self.old) }
    {
        match self {
            Next::InLoop => 0,
            Next::Outside { item, .. } => {
                let number = *item;
                *item += 1;
                number
            }
        }
    }

    /// The number of an `if`.
    pub fn test(&mut self) -> u32
        requires { used (next_in self.old) ≤ 4000 }
        ensures number { result ≡ if_number (next_in self.old) }
        ensures behind { next_in self.new ≡ behind_if (next_in self.old) }
    {
        match self {
            Next::InLoop => 0,
            Next::Outside { test, .. } => {
                let number = *test;
                *test += 1;
                number
            }
        }
    }

    /// The number of a `do`.
    pub fn window(&mut self) -> u32
        requires { used (next_in self.old) ≤ 4000 }
        ensures number { result ≡ do_number (next_in self.old) }
        ensures behind { next_in self.new ≡ behind_do (next_in self.old) }
    {
        match self {
            Next::InLoop => 0,
            Next::Outside { window, .. } => {
                let number = *window;
                *window += 1;
                number
            }
        }
    }
}
