//! A file of cases, part by part.

use crate::case::{Case, No};
use crate::filling::{Name, filled};
use crate::parts::{Kind, Part, parts};
use crate::turns::run_turns;
use std::alloc::{AllocError, Global};
use std::io;

/// Runs the cases of the file and tells of each. It says whether all passed.
pub(crate) fn run_theme(
    rt: HostRuntime,
    names: &mut Vec<Name>,
    theme: &str,
    text: &str,
) -> io::Result<bool> {
    match parts(rt.alloc(), text) {
        Ok(parts) => run_parts(rt, names, theme, &parts),
        Err(no) => {
            println!(rt; "no {theme}: {no}")?;
            Ok(false)
        }
    }
}

fn run_parts(
    rt: HostRuntime,
    names: &mut Vec<Name>,
    theme: &str,
    parts: &[Part],
) -> io::Result<bool> {
    let alloc = rt.alloc();
    let mut group = None;
    let mut passed = true;
    for part in parts {
        if matches!(part.kind, Kind::Group) {
            group = Some(part);
        }
        let outcome = run_part(alloc, names, group, part);
        let title = title(alloc, theme, group, part)?;
        match outcome {
            Ok(None) if matches!(part.kind, Kind::Names | Kind::Group) => {}
            Ok(None) => println!(rt; "ok {title}")?,
            Ok(Some(difference)) => {
                println!(rt; "no {title}: {difference}")?;
                passed = false;
            }
            Err(no) => {
                println!(rt; "no {title}: {no}")?;
                passed = false;
            }
        }
    }
    Ok(passed)
}

/// How a part is named.
fn title(
    alloc: Global,
    theme: &str,
    group: Option<&Part>,
    part: &Part,
) -> Result<String, AllocError> {
    let title = &part.title;
    match group {
        Some(group) if matches!(part.kind, Kind::Row) => {
            let group = &group.title;
            format!(in alloc; "{theme}: {group}: {title}")
        }
        _ => format!(in alloc; "{theme}: {title}"),
    }
}

/// What came of a part and isn't what it expects, where there is such a thing.
fn run_part(
    alloc: Global,
    names: &mut Vec<Name>,
    group: Option<&Part>,
    part: &Part,
) -> Result<Option<String>, No> {
    match (part.kind, group) {
        (Kind::Names, _) => add_names(alloc, names, part).map(|()| None),
        (Kind::Group, _) => Ok(None),
        (Kind::Case, _) => run_turns(alloc, names, &part.entries, &[]),
        (Kind::Row, Some(group)) => run_turns(alloc, names, &part.entries, &group.entries),
        (Kind::Row, None) => Err(No::Value("group")),
    }
}

/// Adds what stands for names.
fn add_names(alloc: Global, names: &mut Vec<Name>, part: &Part) -> Result<(), No> {
    for entry in &part.entries {
        let text = filled(alloc, names, "names", &entry.value)?;
        names.push(Name {
            name: entry.key.clone()?,
            text,
        })?;
    }
    Ok(())
}
