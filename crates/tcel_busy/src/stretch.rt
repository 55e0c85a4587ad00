/// The cycles number `from` + 1 to `to` of a task's frame: cycle c is done `delay` + c ticks after the
/// frame's release.
#[derive(Clone, Copy, Debug)]
pub(crate) struct Stretch {
    pub(crate) frame: u64,
    pub(crate) from: u64,
    pub(crate) to: u64,
    pub(crate) delay: u64,
}
