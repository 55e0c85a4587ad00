ghost use Rattle.std.specs.Prelude.{◌≡◌};
ghost use Rattle.tcel_tool.specs.ExitStatus.{exit_status};
ghost use Rattle.tcel_tool.specs.declared.status.Status.TheVariants.{NoMemory as memory, WriteFault as write_fault};

use tcel_check::{CheckKind, LimitKind};
use tcel_demand::Late;
use tcel_image::{Flaw, ImageFail};
use tcel_io::SinkFault;
use tcel_judge::Breach;
use tcel_link::LinkFail;
use tcel_num::{At, NoMemory};
use tcel_script::ScriptFail;
use tcel_target::TargetFail;
use tcel_trace::TraceFail;

/// How a call of `tcel` ended (docs/commands.md). `word` is the number of a word of the command line, where the command itself is 0.
#[derive(Debug, Drop, PartialEq, Eq)]
pub enum Status {
    Ok,
    /// No number of sliced tasks fits; where all are sliced, this point is the first late one.
    Late(Late),
    /// No number of sliced tasks fits; where all are sliced, the frames of `hyper` ticks ask for `demand` cycles, which is more.
    Overload { demand: u64, hyper: u64 },
    /// The program's text goes wrong at this place.
    Program { kind: ProgramKind, at: At },
    Limit(LimitFault),
    /// The words have no form of a command.
    Words,
    /// The file of this word can't be read.
    ReadFault { word: usize },
    /// The output couldn't be written.
    WriteFault,
    NoMemory,
    /// The target's bytes are no target. Want of memory is `NoMemory`.
    Target(TargetFail),
    /// The bytes of the image file spell no image. Want of memory is `NoMemory`.
    Image(ImageFail),
    /// The image isn't valid.
    Flaw(Flaw),
    /// The script has a faulty line. Want of memory is `NoMemory`.
    Script(ScriptFail),
    /// The trace doesn't meet the program; this is the first thing that is wrong with it.
    Breach(Breach),
    /// The bytes of the trace have a line without the form of one. Want of memory is `NoMemory`.
    Trace(TraceFail),
    /// The links have a faulty line. Want of memory is `NoMemory`.
    Link(LinkFail),
}

/// How a program's text goes wrong (docs/language.md).
#[derive(Clone, Copy, Debug, PartialEq, Eq)]
pub enum ProgramKind {
    /// A byte that begins no token.
    BadByte,
    /// A number above 9223372036854775807.
    BadNumber,
    /// A name of more than 32 bytes.
    NameTooLong,
    /// The first token such that no program begins with the tokens up to it, or the text's end.
    Unexpected,
    /// A fault of a program that follows the grammar.
    Check(CheckKind),
}

/// A limit that is passed.
#[derive(Clone, Copy, Debug, PartialEq, Eq)]
pub enum LimitFault {
    /// The file of this word has more bytes than the limit.
    Bytes { word: usize, limit: usize },
    /// A number is above the greatest one allowed.
    Count { kind: CountKind, value: u64 },
    /// The 33rd unclosed bracket of a program is here.
    Nesting { at: At },
    /// The 65th operator of an outermost expression is here.
    Operators { at: At },
    /// Here is the first one too many of what a program has.
    Placed { kind: LimitKind, at: At },
    /// The parts of this task need so many words.
    Cells { task: usize, words: u64 },
    /// A frame of this task takes so many cycles, whole or sliced.
    Cycles { task: usize, cycles: u64 },
    /// With this task the least common multiple of the periods is too long.
    Hyper { task: usize },
    /// So many frames are released in the hyperperiod.
    Frames { frames: u64 },
}

/// What a number counts: one of the command line, or the tasks of a program.
#[derive(Clone, Copy, Debug, PartialEq, Eq)]
pub enum CountKind {
    Ticks,
    MeanFrames,
    /// The tasks of a made program.
    MadeTasks,
    /// The tasks of a program of which the fewest sliced ones are asked for.
    FewestTasks,
}

impl Status {
    /// The exit status.
    pub fn code(&self) -> u8
        ensures { result ≡ exit_status self.now }
    {
        match self {
            Status::Ok => 0,
            Status::Late(_) | Status::Overload { .. } => 1,
            Status::Program { .. } => 2,
            Status::Limit(_) => 3,
            Status::Words => 4,
            Status::ReadFault { .. } => 5,
            Status::WriteFault => 6,
            Status::NoMemory => 7,
            Status::Target(_) => 8,
            Status::Image(_) | Status::Flaw(_) => 9,
            Status::Script(_) => 10,
            Status::Breach(_) => 12,
            Status::Trace(_) => 13,
            Status::Link(_) => 11,
        }
    }
}

impl From<NoMemory> for Status {
    ghost from_gives = { λ _ status. status ≡ memory };

    fn from(_error: NoMemory) -> Status {
        Status::NoMemory
    }
}

impl From<SinkFault> for Status {
    ghost from_gives = { λ _ status. status ≡ write_fault };

    fn from(_error: SinkFault) -> Status {
        Status::WriteFault
    }
}
