//! The program: a command line and the desk over real files, handed to the generator.
#![tactic(auto)]

mod ended;
mod file_desk;
mod history;
mod made_files;
mod opened_file;
mod taken;
mod transfer;

use ended::Ended;
use file_desk::FileDesk;
use std::alloc::AllocError;
use std::{env, io};
use testgen_engine::{OUT_OF_MEMORY, testgen};

/// The words after the program's name. A command line with a word that is not text has none, so
/// that the generator refuses it as it refuses any faulty one.
fn words(rt: HostRuntime) -> Result<Vec<String>, AllocError> {
    match env::args(&rt) {
        Ok(arguments) => arguments.skip(1).collect(rt.alloc()),
        Err(error) if error.kind() == io::ErrorKind::OutOfMemory => Err(AllocError),
        Err(_) => Ok(Vec::new(rt.alloc())),
    }
}

fn main(rt: HostRuntime) -> Ended {
    let Ok(words) = words(rt) else {
        return Ended {
            status: OUT_OF_MEMORY,
        };
    };
    let mut desk = FileDesk::new(rt.alloc(), rt, rt.stdout(), rt.stderr());
    let status = testgen(rt.alloc(), words.as_slice(), &mut desk);
    Ended { status }
}
