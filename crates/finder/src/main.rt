//! Prints the lines of files, or of standard input, in which a pattern matches.
#![tactic(auto)]

mod args;
mod command;
mod engines;
mod error;
mod files;
mod flags;
mod globs;
mod lines;
mod literals;
mod options;
mod pairs;
mod patterns;
mod printer;
mod quoted;
mod split;
mod usage;

use crate::engines::Engines;
use crate::error::Error;
use crate::files::Files;
use crate::lines::Lines;
use crate::options::{Action, Colors, Options, Shows};
use crate::printer::Printer;
use crate::usage::{USAGE, VERSION};
use std::env;
use std::io::{ErrorKind, IsTerminal, Write};
use std::process::ExitCode;

/// The exit status of a program that a closed pipe ends, as a shell shows it.
const CLOSED_PIPE: u8 = 141;

/// The exit status after an error.
const FAILED: u8 = 2;

/// Returns whether standard output is a terminal that has colors.
fn has_terminal(rt: &HostRuntime) -> bool {
    match env::var(rt, "TERM") {
        Ok(name) => rt.stdout().is_terminal() && name.as_str() != "dumb",
        Err(_) => false,
    }
}

/// Returns whether matches are marked by colors.
fn has_colors(rt: &HostRuntime, colors: Colors) -> bool {
    match colors {
        Colors::IfTerminal => has_terminal(rt),
        Colors::Always => true,
        Colors::Never => false,
    }
}

/// Searches for the patterns, and returns the exit status.
fn search<'a>(rt: &HostRuntime, options: &Options<'_>) -> Result<ExitCode, Error<'a>> {
    let settings = &options.settings;
    let regex = patterns::compile(rt.alloc(), options.patterns.as_slice(), settings)?;
    if settings.max_count == 0 && !matches!(settings.shows, Shows::OtherNames) {
        return Ok(ExitCode::FAILURE);
    }
    let engines = Engines::new(rt.alloc(), &regex, settings)?;
    search_files(rt, options, engines)
}

/// Searches the files, and returns the exit status.
fn search_files<'a>(
    rt: &HostRuntime,
    options: &Options<'_>,
    engines: Engines<'_>,
) -> Result<ExitCode, Error<'a>> {
    let settings = &options.settings;
    let printer = Printer::new(rt, settings, has_colors(rt, settings.colors))?;
    let lines = Lines::new(rt.alloc(), settings, engines, printer);
    let mut files = Files::new(rt, options, lines)?;
    Ok(files.search_all()?)
}

/// Prints a text, and returns the exit status.
fn print<'a>(rt: &HostRuntime, text: &str) -> Result<ExitCode, Error<'a>> {
    rt.stdout().write_all(text.as_bytes())?;
    Ok(ExitCode::SUCCESS)
}

/// Does what the arguments say, and returns the exit status.
fn run<'a>(rt: &HostRuntime, args: &'a [Vec<u8>]) -> Result<ExitCode, Error<'a>> {
    let options = command::read(rt, args)?;
    match options.settings.action {
        Action::PrintUsage => print(rt, USAGE),
        Action::PrintVersion => print(rt, VERSION),
        Action::Search => search(rt, &options),
    }
}

/// Writes an error that ends the program, unless a pipe was closed, and returns the exit status.
fn report(rt: &HostRuntime, error: &Error<'_>) -> ExitCode {
    match error {
        Error::Output(error) if error.kind() == ErrorKind::BrokenPipe => {
            ExitCode::from(CLOSED_PIPE)
        }
        _ => {
            let _ = writeln!(rt.stderr(), "finder: {error}");
            ExitCode::from(FAILED)
        }
    }
}

fn main(rt: HostRuntime) -> ExitCode {
    let args = match args::args(&rt) {
        Ok(args) => args,
        Err(error) => return report(&rt, &Error::from(error)),
    };
    match run(&rt, args.as_slice()) {
        Ok(status) => status,
        Err(error) => report(&rt, &error),
    }
}
