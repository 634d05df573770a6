//! Runs the cases of commands. The file `themes` lists the files of cases, a line each. For each case
//! this prints `ok` and its name, or what came in the place of what the file expects; then it ends with
//! the status 1. Behind the cases come the commands over all examples.
#![tactic(auto)]

mod case;
mod children;
mod examples;
mod filling;
mod judging;
mod parts;
mod running;
mod stages;
mod theme;
mod turns;
mod unfailing;

use crate::examples::run_examples;
use crate::filling::Name;
use crate::theme::run_theme;
use std::process::ExitCode;
use std::{fs, io};

/// The file that lists the files of cases.
const THEMES: &str = "themes";

fn main(rt: HostRuntime) -> ExitCode {
    match run_all(rt) {
        Ok(true) => ExitCode::SUCCESS,
        Ok(false) | Err(_) => ExitCode::FAILURE,
    }
}

/// Whether each case passed, and the commands over examples were run.
fn run_all(rt: HostRuntime) -> io::Result<bool> {
    let passed = run_themes(rt)?;
    run_examples(rt)?;
    Ok(passed)
}

/// Whether each case of each file passed.
fn run_themes(rt: HostRuntime) -> io::Result<bool> {
    let Ok(themes) = fs::read_to_string(&rt, THEMES) else {
        println!(rt; "can't read {THEMES}")?;
        return Ok(false);
    };
    let mut names = Vec::new(rt.alloc());
    let mut passed = true;
    for theme in themes.lines() {
        if !run_file(rt, &mut names, theme)? {
            passed = false;
        }
    }
    Ok(passed)
}

/// Whether each case of this file passed.
fn run_file(rt: HostRuntime, names: &mut Vec<Name>, theme: &str) -> io::Result<bool> {
    match fs::read_to_string(&rt, theme) {
        Ok(text) => run_theme(rt, names, theme, &text),
        Err(_) => {
            println!(rt; "can't read {theme}")?;
            Ok(false)
        }
    }
}
