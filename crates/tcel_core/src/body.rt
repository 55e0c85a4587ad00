use crate::expr::CoreExpr;
use sqlite_items::Items;

/// Statements, one after another.
#[cycle(body)]
#[derive(Debug, Drop)]
pub struct Body {
    pub list: Items<CoreStmt>,
}

/// A statement. Items and ifs outside loops are numbered in text order from 0, `do` blocks from 1;
/// statements inside a loop have number 0. Windows are in ticks after the release (docs/language.md).
#[cycle(body)]
#[derive(Debug, Drop)]
pub enum CoreStmt {
    Item {
        id: u32,
        item: Item,
    },
    If {
        id: u32,
        test: CoreExpr,
        yes: Body,
        no: Body,
    },
    Do {
        id: u32,
        after: Option<u64>,
        before: Option<u64>,
        within: Option<u64>,
        body: Body,
    },
}

/// A statement that slicing keeps or moves whole. Variables and ports go by their numbers.
#[cycle(body)]
#[derive(Debug, Drop)]
pub enum Item {
    Assign(u32, CoreExpr),
    /// The array, the index and the value.
    AssignAt(u32, CoreExpr, CoreExpr),
    /// The variable and the input.
    Receive(u32, u32),
    /// The value and the output.
    Send(CoreExpr, u32),
    /// The variable, the number of turns and the body.
    For(u32, u32, Body),
    /// The test, the greatest number of turns and the body.
    While(CoreExpr, u32, Body),
    /// From the first variable to the second, which has as many words.
    Copy(u32, u32),
}
