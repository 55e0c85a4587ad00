/// The numbers from `least` to `greatest`.
#[derive(Clone, Copy, Debug)]
pub struct Range {
    pub least: u32,
    pub greatest: u32,
}

/// The three fields behind the depth of an instruction.
#[derive(Clone, Copy, Debug)]
pub struct Operands {
    pub a: u32,
    pub b: u32,
    pub c: u32,
}
