/// What a tick does: it serves the task the cycle number `cycles` of its frame, from 1, and ends `response`
/// ticks after the frame's release.
#[derive(Clone, Copy, Debug)]
pub(crate) struct Step {
    pub(crate) task: usize,
    pub(crate) frame: u64,
    pub(crate) cycles: u64,
    pub(crate) response: u64,
}
