//! A shell that kills the children, and removes their files, where this program ends before it could, as by
//! a signal.

use std::io;
use std::io::{ErrorKind, Write};
use std::process::{Child, ChildStdin, Command, Stdio};

const SHELL: &str = "/bin/sh";

/// It hears of a folder that was made (`/`), of each child that was started (`+`) and that ended (`-`), and
/// that nothing is left to be done (`.`). At the end of its input, which comes with the end of this program,
/// it kills who is left, and removes the folder. A signal to the whole group, as from a terminal, doesn't
/// end it.
const SCRIPT: &str = "trap '' HUP INT TERM
left= folder=
while IFS= read -r line; do
    what=${line#? }
    case $line in
    /*) folder=$what ;;
    +*) left=\"$left $what\" ;;
    -*) rest=
        for one in $left; do
            [ \"$one\" = \"$what\" ] || rest=\"$rest $one\"
        done
        left=$rest ;;
    .*) left= folder= ;;
    esac
done
[ -z \"$left\" ] || kill -9 $left
[ -z \"$folder\" ] || rm -rf -- \"$folder\"";

/// A shell that watches over children.
#[derive(Drop)]
pub(crate) struct Watcher {
    shell: Child,
    input: ChildStdin,
}

impl Watcher {
    /// A watcher of nobody yet, where there is a shell.
    pub(crate) fn start(rt: &HostRuntime) -> io::Result<Option<Self>> {
        let mut command = Command::new(rt.alloc(), SHELL)?;
        let _ = command.arg("-c")?.arg(SCRIPT)?;
        let _ = command
            .stdin(Stdio::piped())
            .stdout(Stdio::null())
            .stderr(Stdio::null());
        let mut shell = command.spawn(rt)?;
        match shell.stdin.take() {
            Some(input) => Ok(Some(Watcher { shell, input })),
            None => Ok(None),
        }
    }

    /// Watches over this process too.
    pub(crate) fn add(&mut self, rt: &HostRuntime, process: u32) -> io::Result<()> {
        let line = format!(in rt.alloc(); "+ {process}\n")?;
        self.input.write_all(line.as_bytes())
    }

    /// Watches over this folder too. A name that is no line can't be told.
    pub(crate) fn add_folder(&mut self, rt: &HostRuntime, folder: &str) -> io::Result<()> {
        if folder.contains('\n') {
            return Err(io::Error::from(ErrorKind::InvalidInput));
        }
        let line = format!(in rt.alloc(); "/ {folder}\n")?;
        self.input.write_all(line.as_bytes())
    }

    /// No longer watches over this process, which has ended.
    pub(crate) fn remove(&mut self, rt: &HostRuntime, process: u32) -> io::Result<()> {
        let line = format!(in rt.alloc(); "- {process}\n")?;
        self.input.write_all(line.as_bytes())
    }

    /// Ends the watcher, where all children have ended and the folder is removed.
    pub(crate) fn end(self) -> io::Result<()> {
        let Watcher {
            mut shell,
            mut input,
        } = self;
        let told = input.write_all(b".\n");
        drop(input);
        let _ = shell.wait()?;
        told
    }
}
