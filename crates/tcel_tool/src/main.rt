//! The program `tcel`: its commands.
#![tactic(auto)]

ghost use Rattle.std.specs.Prelude.{◌≡◌, ◌<◌, ◌⊎◌};
ghost use Rattle.tcel_io.specs.Count.{Rose};

use fault_line::put_fault_line;
use status::Status;
use std::env;
use std::io::ErrorKind;
use std::process::ExitCode;
use std::rt::Env;
use tcel_io::{HostShelf, HostSink};
use tcel_num::NoMemory;
use tool::tcel;

mod analyse;
#[cfg(test)]
mod analyse_tests;
mod check;
#[cfg(test)]
mod check_tests;
mod choice;
mod command;
mod compile;
#[cfg(test)]
mod compile_tests;
mod examples;
mod fault_line;
mod fewest;
#[cfg(test)]
mod fewest_tests;
mod fewest_text;
mod format;
#[cfg(test)]
mod format_tests;
mod formed;
mod headline;
mod judge;
#[cfg(test)]
mod judge_tests;
mod linked;
#[cfg(test)]
mod linked_tests;
mod make;
#[cfg(test)]
mod make_tests;
mod mean;
#[cfg(test)]
mod mean_tests;
mod mean_text;
mod program;
#[cfg(test)]
mod program_tests;
mod report;
mod run;
mod script;
mod span_line;
mod spans;
mod stages;
mod state_text;
mod status;
mod summary;
#[cfg(test)]
mod tests;
mod timeline;
#[cfg(test)]
mod timeline_tests;
mod tool;
mod trial;
#[cfg(test)]
mod trial_tests;
mod writing;

fn main(rt: HostRuntime) -> ExitCode {
    let alloc = rt.alloc();
    let mut out = HostSink::output(rt.stdout());
    let mut err = HostSink::error(rt.stderr());
    let status = match words(&rt) {
        Ok(words) => tcel(
            alloc,
            &words,
            &mut HostShelf::new(rt, alloc),
            &mut out,
            &mut err,
        ),
        Err(status) => {
            put_fault_line(&[], &status, b"", &mut err);
            status
        }
    };
    ExitCode::from(finish(status, &mut out, &mut err).code())
}

/// Writes what the streams still hold, output before error, at the end of a call with this status. Where output can't be written, a call that
/// was done is one with a write fault.
fn finish(status: Status, out: &mut HostSink, err: &mut HostSink) -> Status
    ensures kept { (result ≡ status) ⊎ ((status ≡ Status.Ok) × (result ≡ Status.WriteFault) × Rose out.old out.new) }
    ensures fault { status ≡ Status.Ok → out.old < out.new → result ≡ Status.WriteFault }
{
    let mut end = status;
    if out.finish().is_err() && matches!(end, Status::Ok) {
        end = Status::WriteFault;
        put_fault_line(&[], &end, b"", err);
    }
    let _unwritten = err.finish();
    end
}

/// The words behind the program's name. One that isn't UTF-8 is a faulty command line.
fn words(rt: &(impl Env + AllocGlobal)) -> Result<Vec<String>, Status> {
    match env::args(rt) {
        Ok(args) => Ok(args.skip(1).collect(rt.alloc()).map_err(NoMemory::from)?),
        Err(error) if error.kind() == ErrorKind::OutOfMemory => Err(Status::NoMemory),
        Err(_) => Err(Status::Words),
    }
}
