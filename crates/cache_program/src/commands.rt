//! The tasks of the command line, over the process's streams and files.
use crate::failure::Failure;
use cli_answer::{run_answer, run_wire};
use cli_words::Scripted;
use cli_world::run_world;
use cluster_process::{Stores, open_stores};
use roster::Roster;
use std::alloc::Global;
use std::io::{BufRead, ErrorKind, Write};
use std::rt::{Env, Files};
use std::{env, fs, io};
use values_lines::RunFault;

/// The words of the command line; the first is the program's name.
pub(crate) fn words_of<R: Env + AllocGlobal>(rt: &R) -> io::Result<Vec<String>> {
    let mut words = Vec::new(rt.alloc());
    for word in env::args(rt)? {
        words.push(word)?;
    }
    Ok(words)
}

/// Runs a script between standard input and standard output.
pub(crate) fn play<R: Files + Input + Print + AllocGlobal>(
    rt: &R,
    script: &Scripted,
) -> Result<(), Failure> {
    let (alloc, mut reader, mut writer) = (rt.alloc(), rt.reader(), io::writer(rt));
    match script {
        Scripted::Answer => run_answer(alloc, &mut reader, &mut writer).map_err(Failure::Run),
        Scripted::Wire(by) => run_wire(alloc, *by, &mut reader, &mut writer).map_err(Failure::Run),
        Scripted::World(file) => {
            let roster = roster_in(rt, file.as_str())?;
            run_world(alloc, &roster, &mut reader, &mut writer).map_err(Failure::Run)
        }
    }
}

/// What a cluster starts with.
#[derive(Drop)]
pub(crate) struct Grounds {
    pub(crate) roster: Roster,
    pub(crate) stores: Stores,
}

/// The roster in a file, and the stores of its members and its master in a folder.
pub(crate) fn grounds_of(
    rt: &HostRuntime,
    alloc: Global,
    file: &str,
    dir: &str,
) -> Result<Grounds, Failure> {
    let roster = roster_in(rt, file)?;
    match open_stores(rt, alloc, &roster, dir) {
        Ok(stores) => Ok(Grounds { roster, stores }),
        Err(fault) => Err(Failure::Cluster(fault)),
    }
}

/// The roster in a file, which is read whole.
fn roster_in<R: Files + AllocGlobal>(rt: &R, path: &str) -> Result<Roster, Failure> {
    let octets = fs::read(rt, path).map_err(unread)?;
    let Ok(text) = String::from_utf8(octets) else {
        return Err(Failure::NotText);
    };
    Roster::read(rt.alloc(), text.as_str()).map_err(Failure::Roster)
}

/// Why a file could not be read.
fn unread(error: io::Error) -> Failure {
    if error.kind() == ErrorKind::OutOfMemory {
        Failure::Run(RunFault::NoMemory)
    } else {
        Failure::File
    }
}
