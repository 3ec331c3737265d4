//! The command `cache`: it does what its command line asks for, over the process's streams and
//! files.
//!
//! `cli_words` makes a task of the words. `src/commands.rt` runs a script (`cli_answer`,
//! `cli_world`) between standard input and output, or opens the roster and the stores of a cluster;
//! `main` runs the cluster (`cluster_process`) or the origin for trials (`cluster_origin`).
//! `src/failure.rt` says on standard error why a task ended early, and gives the status.
//!
//! The program reads standard input, writes standard output and standard error, and reads the
//! roster's file. The crates that it calls open the stores, sockets and threads.
//!
//! It has no contracts: only that it is safe, and ends unless it waits, is proved. Its parts have
//! contracts of their own, and script tests show what it does.
#![tactic(auto)]

mod commands;
mod failure;

use clap::Error;
use cli_words::Task;
use cluster_origin::run_origin;
use cluster_process::run_cluster;
use commands::Grounds;
use failure::Failure;
use std::io;
use std::process::ExitCode;
use values_lines::RunFault;

/// Does what the command line asks for.
fn main(rt: HostRuntime) -> ExitCode {
    let Ok(words) = commands::words_of(&rt) else {
        return failure::status_of(&rt, Err(Failure::Run(RunFault::NoMemory)));
    };
    let task = match cli_words::task_of(rt.alloc(), words.as_slice()) {
        Ok(task) => task,
        Err(error) => return refused(&rt, &error),
    };
    let done = match task {
        Task::Script(script) => commands::play(&rt, &script),
        Task::Origin { at, count } => run_origin(&rt, rt.alloc(), at, count).map_err(
            Failure::Origin,
        ),
        Task::Cluster {
            file,
            dir,
            workers,
            history,
        } => {
            match commands::grounds_of(&rt, rt.alloc(), file.as_str(), dir.as_str()) {
                Ok(Grounds { roster, stores }) => {
                    let (mut input, mut output) = (rt.reader(), io::writer(&rt));
                    run_cluster(
                        rt,
                        rt.alloc(),
                        &roster,
                        stores,
                        workers,
                        history,
                        &mut input,
                        &mut output,
                    )
                    .map_err(Failure::Cluster)
                    .map(|_kept| ())
                }
                Err(failure) => Err(failure),
            }
        }
    };
    failure::status_of(&rt, done)
}

/// Prints what the command line is answered: its fault, help, or the version.
fn refused<R: Print + Eprint>(rt: &R, error: &Error) -> ExitCode {
    let _ = error.print(rt);
    ExitCode::from(cli_words::status_of(error))
}
