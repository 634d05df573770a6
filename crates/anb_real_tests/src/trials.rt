//! Children of cases: what they write and take, and how they end.

ghost use Rattle.std.specs.Prelude.{◌≡◌, ℕ, IfOk};
ghost use Rattle.anb_processes.specs.Trials.{trial_of};

use anb_base::{Failed, Sink, Source, Text, read_full, write_whole};
use anb_partner::{ChildEnd, Target, Trials};
use anb_processes::{RealChild, RealTrials};
use std::alloc::{AllocError, Global};
use std::net::{OpenListener, TcpListener};
use std::test::Fail;

/// These words.
fn words(alloc: Global, texts: &[&str]) -> Result<Vec<Text>, AllocError> {
    let mut words = Vec::new(alloc);
    for text in texts {
        words.push(Text::new(String::from_str(alloc, text)?))?;
    }
    Ok(words)
}

/// The child of the first case, which is this one and has this limit.
fn started(trials: &mut RealTrials, limit: Option<u32>, target: Target) -> Result<RealChild, Fail>
    requires { (trial_of trials.old 0).phase ≡ 0 }
    ensures { IfOk result (λ _. (trial_of trials.new 0).phase ≡ 1) }
{
    match trials.start(0, limit, target) {
        Ok(child) => Ok(child),
        Err(Failed) => Err("not started".into()),
    }
}

/// How a shell that runs this line ends, and whether it was silent for a second.
fn end_of(rt: HostRuntime, line: &str) -> Result<(Result<ChildEnd, Failed>, bool), Fail> {
    let mut trials = RealTrials::new(rt);
    let words = words(rt.alloc(), &["sh", "-c", line])?;
    let child = started(&mut trials, Some(1), Target::Program(&words))?;
    let end = trials.finish(0, child);
    let was_silent = trials.was_silent(0);
    trials.end();
    Ok((end, was_silent))
}

#[test]
fn a_childs_end_is_told(rt: HostRuntime) -> Result<(), Fail> {
    assert_eq!(rt; end_of(rt, "exit 7")?, (Ok(ChildEnd::Status(7)), false));
    assert_eq!(rt;
        end_of(rt, "kill -15 $$")?,
        (Ok(ChildEnd::Signal(15)), false)
    );
    assert_eq!(rt; end_of(rt, "exec sleep 100")?, (Err(Failed), true));
    Ok(())
}

#[test]
fn a_child_hears_and_says(rt: HostRuntime) -> Result<(), Fail> {
    let mut trials = RealTrials::new(rt);
    let words = words(rt.alloc(), &["cat"])?;
    let mut child = started(&mut trials, None, Target::Program(&words))?;
    let mut buf = [0u8; 3];
    assert_eq!(rt; child.write(b"ab"), Ok(2));
    assert_eq!(rt; child.read(&mut buf), Ok(2));
    assert_eq!(rt; buf, *b"ab\0");
    trials.close(&mut child);
    assert_eq!(rt; child.read(&mut buf), Ok(0));
    assert_eq!(rt; trials.finish(0, child), Ok(ChildEnd::Status(0)));
    trials.end();
    Ok(())
}

#[test]
fn a_child_may_speak_before_it_hears(rt: HostRuntime) -> Result<(), Fail> {
    let mut trials = RealTrials::new(rt);
    let line = "head -c 200000 /dev/zero; cat > /dev/null";
    let words = words(rt.alloc(), &["sh", "-c", line])?;
    let mut child = started(&mut trials, Some(5), Target::Program(&words))?;
    let mut bytes = vec![in rt.alloc(); 1u8; 200_000]?;
    assert_eq!(rt; write_whole(&mut child, &bytes), Ok(()));
    assert_eq!(rt; read_full(&mut child, &mut bytes), Ok(200_000));
    assert_eq!(rt; bytes.first(), Some(&0));
    assert_eq!(rt; trials.finish(0, child), Ok(ChildEnd::Status(0)));
    trials.end();
    Ok(())
}

#[test]
fn a_program_that_is_not_there_is_not_started(rt: HostRuntime) -> Result<(), Fail> {
    let mut trials = RealTrials::new(rt);
    let words = words(rt.alloc(), &["/no/such/program"])?;
    assert!(rt; trials.start(0, None, Target::Program(&words)).is_err());
    trials.end();
    Ok(())
}

/// A place of this machine where somebody listens.
fn place_of(rt: HostRuntime, listener: &TcpListener) -> Result<Text, Fail> {
    let at = format!(in rt.alloc(); "{}", listener.local_addr()?)?;
    Ok(Text::new(at))
}

#[test]
fn a_silent_peer_is_told(rt: HostRuntime) -> Result<(), Fail> {
    let listener = TcpListener::bind(&rt, "127.0.0.1:0")?;
    let place = place_of(rt, &listener)?;
    let mut trials = RealTrials::new(rt);
    let child = started(&mut trials, Some(1), Target::Dial(&place))?;
    assert_eq!(rt; trials.finish(0, child), Err(Failed));
    assert!(rt; trials.was_silent(0));
    drop(listener);
    trials.end();
    Ok(())
}

#[test]
fn where_nobody_listens_nobody_is_dialled(rt: HostRuntime) -> Result<(), Fail> {
    let listener = TcpListener::bind(&rt, "127.0.0.1:0")?;
    let place = place_of(rt, &listener)?;
    drop(listener);
    let mut trials = RealTrials::new(rt);
    assert!(rt; trials.start(0, None, Target::Dial(&place)).is_err());
    trials.end();
    Ok(())
}
