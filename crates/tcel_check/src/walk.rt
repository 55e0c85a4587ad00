ghost use Rattle.std.specs.Prelude.{◌≡◌, ℕ, List, Option, [], ◌∷◌, pos};
ghost use Rattle.tcel_check.specs.Least.{kept_all};
ghost use Rattle.tcel_check.specs.Known.{kind_in};
ghost use Rattle.tcel_check.specs.Rows.{is_of_type, is_port, when, whole};
ghost use Rattle.tcel_check.specs.Sights as sights;
ghost use Rattle.tcel_check.specs.Types.{is_wanted, scalar_type};
ghost use Rattle.tcel_check.specs.Walks.{Saw};
ghost use Rattle.tcel_tree.specs.declared.task.DeclKind.{DeclKind};

use crate::fail::{CheckKind, LimitKind};
use crate::least::keep;
use crate::mark::{Mark, Row};
use crate::names::Names;
use crate::purpose::Purpose;
use crate::value_type::ValueType;
use tcel_num::{At, Name};
use tcel_tree::{DeclKind, Placed};

/// The greatest period and bound, in ticks.
pub const MOST_TIME: i64 = 1_000_000_000;
/// The most turns of a loop, and elements of an array.
pub const MOST_COUNT: i64 = 4096;

/// A walk through a task: the first mark so far, and how many more nodes and `do` blocks there are up to the one too many.
#[derive(Debug, Drop)]
pub struct Walk {
    pub nodes: u32,
    pub windows: u32,
    pub least: Option<Mark>,
}

impl Walk {
    fn keep(&mut self, found: bool, row: Row, at: At)
        ensures { self.new ≡ record self.old { least = kept_all self.old.least (when found (record { row = row; at = at })) } }
    {
        keep(&mut self.least, found, row, at);
    }

    /// A statement or an expression.
    pub fn node(&mut self, at: At)
        ensures { (kind : List ℕ → Option DeclKind) → Saw kind self.old self.new (sights.node at ∷ []) }
    {
        self.keep(self.nodes == 1, Row::Limit(LimitKind::Nodes), at);
        self.nodes = self.nodes.saturating_sub(1);
    }

    /// A `do` inside this many loops.
    pub fn window(&mut self, at: At, loops: u8)
        ensures { (kind : List ℕ → Option DeclKind) → Saw kind self.old self.new (sights.window at loops ∷ []) }
    {
        self.keep(self.windows == 1, Row::Limit(LimitKind::Windows), at);
        self.windows = self.windows.saturating_sub(1);
        self.keep(loops > 0, Row::Fault(CheckKind::WindowInLoop), at);
    }

    /// A `for` or `while` inside this many loops.
    pub fn enter(&mut self, at: At, loops: u8)
        ensures { (kind : List ℕ → Option DeclKind) → Saw kind self.old self.new (sights.loop at loops ∷ []) }
    {
        self.keep(loops >= 3, Row::Fault(CheckKind::LoopDepth), at);
    }

    /// A number from 1 to this one.
    pub fn bound(&mut self, number: &Placed, most: i64)
        requires { (m : ℕ) × (most ≡ pos m) }
        ensures { (kind : List ℕ → Option DeclKind) → Saw kind self.old self.new (sights.bound number.now (whole most) ∷ []) }
    {
        let outside = number.value < 1 || number.value > most;
        self.keep(outside, Row::Fault(CheckKind::BadBound), number.at);
    }

    /// A number as a value.
    pub fn literal(&mut self, at: At, number: &i64, wanted: Option<ValueType>)
        ensures { (kind : List ℕ → Option DeclKind) → Saw kind self.old self.new (sights.literal at number.now wanted ∷ []) }
    {
        let _number = *number;
        let right = is_wanted(ValueType::Int, wanted);
        self.keep(!right, Row::Fault(CheckKind::WrongType), at);
    }

    /// Another value of a known type.
    pub fn value(&mut self, at: At, given: ValueType, wanted: Option<ValueType>)
        ensures { (kind : List ℕ → Option DeclKind) → Saw kind self.old self.new (sights.value at given wanted ∷ []) }
    {
        let right = is_wanted(given, wanted);
        self.keep(!right, Row::Fault(CheckKind::WrongType), at);
    }

    /// A name.
    pub fn name(&mut self, names: &Names, at: At, name: &Name, purpose: Purpose)
        ensures { Saw (kind_in names.now) self.old self.new (sights.name at name.now purpose ∷ []) }
    {
        let _bytes = name.bytes();
        match names.kind(name) {
            None => self.keep(true, Row::Fault(CheckKind::Unknown), at),
            Some(kind) => {
                let right = is_of_type(purpose, kind);
                self.keep(!right, Row::Fault(CheckKind::WrongType), at);
                let port = is_port(purpose, kind);
                self.keep(!port, Row::Fault(CheckKind::NotAPort), at);
            }
        }
    }
}

fn is_wanted(given: ValueType, wanted: Option<ValueType>) -> bool
    ensures { result ≡ is_wanted given wanted }
{
    match wanted {
        None => true,
        Some(ValueType::Int) => matches!(given, ValueType::Int),
        Some(ValueType::Bool) => matches!(given, ValueType::Bool),
    }
}

/// The type of a scalar variable.
pub fn scalar_type(kind: DeclKind) -> Option<ValueType>
    ensures { result ≡ scalar_type kind }
{
    match kind {
        DeclKind::Int { .. } => Some(ValueType::Int),
        DeclKind::Bool { .. } => Some(ValueType::Bool),
        _ => None,
    }
}

/// Whether a name with this declaration is of the type that its use wants.
fn is_of_type(purpose: Purpose, kind: DeclKind) -> bool
    ensures { result ≡ is_of_type purpose kind }
{
    match purpose {
        Purpose::Scalar(wanted) => match scalar_type(kind) {
            None => false,
            Some(given) => is_wanted(given, wanted),
        },
        Purpose::Element => matches!(kind, DeclKind::Array { .. }),
        Purpose::From | Purpose::To => true,
    }
}

/// Whether it is a port of the kind that its use wants, where that is a port.
fn is_port(purpose: Purpose, kind: DeclKind) -> bool
    ensures { result ≡ is_port purpose kind }
{
    match purpose {
        Purpose::From => matches!(kind, DeclKind::Input),
        Purpose::To => matches!(kind, DeclKind::Output),
        _ => true,
    }
}
