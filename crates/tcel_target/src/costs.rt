ghost use Rattle.std.specs.Prelude.{◌≡◌};
ghost use Rattle.tcel_target.specs.Costs.{cost_of, unit_costs, least_cost, IsCost, ChangesCost};
ghost use Rattle.tcel_target.specs.Target.{key_text};

/// What an instruction costs by its kind, in cycles, 1 to 1,000 each, and what the start of a frame costs, in ticks, 0 to 1,000 (docs/formats.md).
#[derive(Clone, Copy, Debug, PartialEq, Eq)]
pub struct Costs {
    pub const_: u32,
    pub load: u32,
    pub store: u32,
    pub load_at: u32,
    pub store_at: u32,
    pub arith: u32,
    pub multiply: u32,
    pub divide: u32,
    pub jump: u32,
    pub branch: u32,
    pub loop_: u32,
    pub receive: u32,
    pub send: u32,
    pub mark: u32,
    pub end: u32,
    pub dispatch: u32,
}

/// The keys of a cost table, in the order in which targets list them. `Dispatch` is the start of a frame, the others are instructions.
#[derive(Clone, Copy, Debug, PartialEq, Eq)]
pub enum CostKey {
    Const,
    Load,
    Store,
    LoadAt,
    StoreAt,
    Arith,
    Multiply,
    Divide,
    Jump,
    Branch,
    Loop,
    Receive,
    Send,
    Mark,
    End,
    Dispatch,
}

impl CostKey {
    /// The keys of instructions, in this order.
    pub const INSTRUCTIONS: [CostKey; 15] = [
        CostKey::Const,
        CostKey::Load,
        CostKey::Store,
        CostKey::LoadAt,
        CostKey::StoreAt,
        CostKey::Arith,
        CostKey::Multiply,
        CostKey::Divide,
        CostKey::Jump,
        CostKey::Branch,
        CostKey::Loop,
        CostKey::Receive,
        CostKey::Send,
        CostKey::Mark,
        CostKey::End,
    ];

    /// All keys, in this order.
    pub const ALL: [CostKey; 16] = [
        CostKey::Const,
        CostKey::Load,
        CostKey::Store,
        CostKey::LoadAt,
        CostKey::StoreAt,
        CostKey::Arith,
        CostKey::Multiply,
        CostKey::Divide,
        CostKey::Jump,
        CostKey::Branch,
        CostKey::Loop,
        CostKey::Receive,
        CostKey::Send,
        CostKey::Mark,
        CostKey::End,
        CostKey::Dispatch,
    ];

    /// The key as it stands in a target.
    pub fn text(self) -> &'static str
        ensures { result.now ≡ key_text self }
    {
        match self {
            CostKey::Const => "const",
            CostKey::Load => "load",
            CostKey::Store => "store",
            CostKey::LoadAt => "load_at",
            CostKey::StoreAt => "store_at",
            CostKey::Arith => "arith",
            CostKey::Multiply => "multiply",
            CostKey::Divide => "divide",
            CostKey::Jump => "jump",
            CostKey::Branch => "branch",
            CostKey::Loop => "loop",
            CostKey::Receive => "receive",
            CostKey::Send => "send",
            CostKey::Mark => "mark",
            CostKey::End => "end",
            CostKey::Dispatch => "dispatch",
        }
    }

    /// The least cost of this key: 0 for `Dispatch` and 1 for an instruction.
    pub fn least(self) -> u32
        ensures { result ≡ least_cost self }
    {
        match self {
            CostKey::Dispatch => 0,
            _ => 1,
        }
    }
}

impl Costs {
    /// The table in which each instruction takes 1 cycle and a frame starts at once.
    pub fn unit() -> Costs
        ensures { result ≡ unit_costs }
    {
        Costs {
            const_: 1,
            load: 1,
            store: 1,
            load_at: 1,
            store_at: 1,
            arith: 1,
            multiply: 1,
            divide: 1,
            jump: 1,
            branch: 1,
            loop_: 1,
            receive: 1,
            send: 1,
            mark: 1,
            end: 1,
            dispatch: 0,
        }
    }

    /// The cost of this key, in cycles, or in ticks for `Dispatch`.
    pub fn of(&self, key: CostKey) -> u32
        ensures { result ≡ cost_of self.now key }
    {
        match key {
            CostKey::Const => self.const_,
            CostKey::Load => self.load,
            CostKey::Store => self.store,
            CostKey::LoadAt => self.load_at,
            CostKey::StoreAt => self.store_at,
            CostKey::Arith => self.arith,
            CostKey::Multiply => self.multiply,
            CostKey::Divide => self.divide,
            CostKey::Jump => self.jump,
            CostKey::Branch => self.branch,
            CostKey::Loop => self.loop_,
            CostKey::Receive => self.receive,
            CostKey::Send => self.send,
            CostKey::Mark => self.mark,
            CostKey::End => self.end,
            CostKey::Dispatch => self.dispatch,
        }
    }

    /// Gives this key the cost: 0 to 1,000 for `Dispatch` and 1 to 1,000 for an instruction. The other keys keep theirs.
    pub fn set(&mut self, key: CostKey, cost: u32)
        requires { IsCost key cost }
        ensures { ChangesCost self.old self.new key cost }
    {
        match key {
            CostKey::Const => self.const_ = cost,
            CostKey::Load => self.load = cost,
            CostKey::Store => self.store = cost,
            CostKey::LoadAt => self.load_at = cost,
            CostKey::StoreAt => self.store_at = cost,
            CostKey::Arith => self.arith = cost,
            CostKey::Multiply => self.multiply = cost,
            CostKey::Divide => self.divide = cost,
            CostKey::Jump => self.jump = cost,
            CostKey::Branch => self.branch = cost,
            CostKey::Loop => self.loop_ = cost,
            CostKey::Receive => self.receive = cost,
            CostKey::Send => self.send = cost,
            CostKey::Mark => self.mark = cost,
            CostKey::End => self.end = cost,
            CostKey::Dispatch => self.dispatch = cost,
        }
    }
}
