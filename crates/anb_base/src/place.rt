//! Where a wire is reached.

ghost use Rattle.std.specs.Prelude.{◌≡◌, ◌<◌, ◌++◌, ◌∷◌, [], length};

use crate::Text;

/// Where a wire is reached: standard input and output, or one TCP connection that is made or
/// waited for. The text is an address as std's `TcpStream::connect` and `TcpListener::bind` read
/// it, like `127.0.0.1:7000`.
#[derive(Debug, Drop)]
pub enum Place {
    Stdio,
    Dial(Text),
    Listen(Text),
}

impl Place {
    ghost use Rattle.anb_base.specs.Places.{line_of};

    /// The word of this kind of place, and the address after it.
    pub(crate) fn words(&self) -> (&str, &str)
        ensures { line_of self.now ≡ result.0.now ++ result.1.now ++ 10 ∷ [] }
    {
        match self {
            Place::Stdio => ("stdio", ""),
            Place::Dial(at) => ("dial ", at.as_str()),
            Place::Listen(at) => ("listen ", at.as_str()),
        }
    }
}
