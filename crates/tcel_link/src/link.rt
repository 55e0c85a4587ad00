ghost use Rattle.std.specs.Prelude.{◌≡◌};

use std::marker::Model;

/// A link carries the values that a task sends to an output to an input of a task, perhaps of the same one. Tasks, outputs and inputs go by
/// their numbers, from 0.
#[derive(Clone, Copy, Debug, PartialEq, Eq)]
pub struct Link {
    /// The task that sends, and its output.
    pub from: u32,
    pub output: u32,
    /// The task that receives, and its input.
    pub to: u32,
    pub input: u32,
}

/// The links of a text, in the order of its lines. Contracts see them as their list.
#[derive(Debug, Drop)]
pub struct Links {
    links: Vec<Link>,
}

impl Model for Links {
    ghost use Rattle.std.specs.Prelude.{List};
    ghost use Rattle.tcel_link.specs.declared.link.Link.{Link};

    ghost Value = { List Link };

    ghost view = { λ l. l.links.items };
}

impl Links {
    pub(crate) fn new(links: Vec<Link>) -> Links
        ensures { result ≡ links.items }
    {
        Links { links }
    }

    /// The links, in order.
    pub fn list(&self) -> &[Link]
        ensures { result.now ≡ self.now }
    {
        self.links.as_slice()
    }
}
