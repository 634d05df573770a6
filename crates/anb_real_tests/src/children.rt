//! Children of the machine: what they write and take, and how they end.

ghost use Rattle.std.specs.Prelude.{◌≡◌, ◌≢◌, ◌<◌, ℕ, get_or, IfOk, OnOk};
ghost use Rattle.anb_stage.specs.declared.TheConstants.{ROLES};

use anb_base::{Bytes, Failed, Text};
use anb_processes::{ChildProgram, RealSpawner};
use anb_stage::{ChildWords, Spawner};
use std::alloc::{AllocError, Global};
use std::test::Fail;
use std::{fs, str};

/// These words.
fn texts(alloc: Global, all: &[&str]) -> Result<Vec<Text>, AllocError> {
    let mut words = Vec::new(alloc);
    for word in all {
        words.push(Text::new(String::from_str(alloc, word)?))?;
    }
    Ok(words)
}

/// The words of a child of a program.
fn child_words(alloc: Global, program: &[&str], words: &[&str]) -> Result<ChildWords, AllocError> {
    Ok(ChildWords {
        program: texts(alloc, program)?,
        words: texts(alloc, words)?,
        values: None,
    })
}

/// The words of a shell that runs this line.
fn words(alloc: Global, line: &str) -> Result<ChildWords, AllocError> {
    child_words(alloc, &[], &["-c", line])
}

/// A spawner of this program.
fn spawner(rt: HostRuntime, program: &str) -> Result<RealSpawner, AllocError>
    ensures { IfOk result (λ s. (role : ℕ) → get_or s.phases role 0 ≡ 0) }
{
    let program = String::from_str(rt.alloc(), program)?;
    Ok(RealSpawner::new(rt, ChildProgram::Named(Text::new(program))))
}

fn start(children: &mut RealSpawner, role: u32, own: &ChildWords) -> Result<(), Fail>
    requires { role < ROLES }
    ensures started { OnOk result (get_or children.new.phases role 0 ≡ 1) }
    ensures others { (other : ℕ) → other ≢ role
        → get_or children.new.phases other 0 ≡ get_or children.old.phases other 0 }
{
    match children.start(role, None, own) {
        Ok(()) => Ok(()),
        Err(Failed) => Err("not started".into()),
    }
}

/// What becomes of a shell that runs this line.
fn ends(rt: HostRuntime, line: &str) -> Result<Result<u8, Failed>, Fail> {
    let mut shells = spawner(rt, "/bin/sh")?;
    start(&mut shells, 1, &words(rt.alloc(), line)?)?;
    let ended = shells.finish(1);
    shells.end();
    Ok(ended)
}

#[test]
fn children_say_back_what_they_hear(rt: HostRuntime) -> Result<(), Fail> {
    let mut cats = spawner(rt, "/bin/cat")?;
    let none = child_words(rt.alloc(), &[], &[])?;
    start(&mut cats, 0, &none)?;
    start(&mut cats, 1, &none)?;
    let mut buf = [0u8; 3];
    assert_eq!(rt; cats.write(0, b"ab"), Ok(2));
    assert_eq!(rt; cats.read(0, &mut buf), Ok(2));
    assert_eq!(rt; buf, *b"ab\0");
    assert_eq!(rt; cats.finish(0), Ok(0));
    assert_eq!(rt; cats.finish(1), Ok(0));
    cats.end();
    Ok(())
}

#[test]
fn a_child_ends_with_its_status(rt: HostRuntime) -> Result<(), Fail> {
    assert_eq!(rt; ends(rt, "exit 7")?, Ok(7));
    assert_eq!(rt; ends(rt, "cat; head -c 1000000 /dev/zero")?, Ok(0));
    assert_eq!(rt; ends(rt, "kill -9 $$")?, Err(Failed));
    Ok(())
}

#[test]
fn words_may_name_the_program(rt: HostRuntime) -> Result<(), Fail> {
    let mut shells = spawner(rt, "/no/such/program")?;
    let own = child_words(rt.alloc(), &["/bin/sh", "-c"], &["exit 7"])?;
    start(&mut shells, 0, &own)?;
    assert_eq!(rt; shells.finish(0), Ok(7));
    shells.end();
    Ok(())
}

#[test]
fn values_stand_in_a_file(rt: HostRuntime) -> Result<(), Fail> {
    let mut shells = spawner(rt, "/bin/sh")?;
    let mut own = words(rt.alloc(), "cat \"$0\"")?;
    own.values = Some(Bytes::new(Vec::from_slice(rt.alloc(), b"N = x00\n")?));
    start(&mut shells, 0, &own)?;
    let mut buf = [0u8; 8];
    assert_eq!(rt; shells.read(0, &mut buf), Ok(8));
    assert_eq!(rt; buf, *b"N = x00\n");
    assert_eq!(rt; shells.finish(0), Ok(0));
    shells.end();
    Ok(())
}

/// What the system tells of the process that a child says it is.
fn place_of(rt: HostRuntime, shells: &mut RealSpawner) -> Result<String, Fail>
    requires { get_or shells.old.phases 0 0 ≡ 1 }
{
    let mut said = [0u8; 32];
    let Ok(n) = shells.read(0, &mut said) else {
        return Err("not read".into());
    };
    let process = str::from_utf8(&said[..n])?;
    Ok(format!(in rt.alloc(); "/proc/{}", process.trim_end())?)
}

#[test]
fn a_child_that_runs_on_is_killed(rt: HostRuntime) -> Result<(), Fail> {
    let mut shells = spawner(rt, "/bin/sh")?;
    start(
        &mut shells,
        0,
        &words(rt.alloc(), "echo $$; exec sleep 1000")?,
    )?;
    let place = place_of(rt, &mut shells)?;
    assert!(rt; fs::metadata(&rt, place.as_str()).is_ok());
    shells.end();
    assert!(rt; fs::metadata(&rt, place.as_str()).is_err());
    Ok(())
}
