use crate::firsts::Firsts;
use crate::places::Places;

/// The cells of a task: where the words of its variables begin, and which counters of loops follow them.
#[derive(Drop)]
pub(crate) struct Cells<'a> {
    pub(crate) places: Places<'a>,
    pub(crate) firsts: Firsts<'a>,
}
