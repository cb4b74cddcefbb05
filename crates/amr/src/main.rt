//! The program `amr`: it makes the real source, sinks and disk, calls the top call, and ends with its status.
#![tactic(auto)]

use amr_causes::NoMemory;
use amr_cli::Line;
use amr_disk::FileDisk;
use amr_io::{StdSink, StdSource};
use amr_run::{Status, amr};
use std::env;
use std::io::ErrorKind;
use std::process::ExitCode;

fn main(rt: HostRuntime) -> ExitCode {
    let status = match (words_of(&rt), disk_of(&rt)) {
        (Ok(words), Ok(mut disk)) => {
            let mut src = StdSource::make(rt.stdin());
            let mut out = StdSink::make(rt.stdout());
            let mut err = StdSink::make(rt.stderr());
            amr(
                &rt,
                rt.alloc(),
                &words,
                &mut src,
                &mut out,
                &mut err,
                &mut disk,
            )
        }
        _ => Status::NoMemory,
    };
    ExitCode::from(status.code())
}

// The disk of the store: a file of the current folder.
fn disk_of(rt: &HostRuntime) -> Result<FileDisk<HostRuntime>, NoMemory> {
    match rt.clone() {
        Ok(files) => Ok(FileDisk::make(files)),
        Err(_) => Err(NoMemory),
    }
}

// The words after the program's name. Where one of them is no text they are no command, as no words are.
fn words_of(rt: &HostRuntime) -> Result<Line, NoMemory> {
    let mut words = Line::make(rt.alloc());
    match env::args(rt) {
        Ok(args) => {
            for word in args.skip(1) {
                words.push(word.as_str())?;
            }
            Ok(words)
        }
        Err(error) if error.kind() == ErrorKind::OutOfMemory => Err(NoMemory),
        Err(_) => Ok(words),
    }
}
