//! What can be asked of the program about itself.
ghost use Rattle.std.specs.Prelude.{◌≡◌};
ghost use Rattle.anb_help.specs.Pages.{page_of};

/// What the program says of itself: the overview, the version, or a page on a command.
#[derive(Clone, Copy, Debug, PartialEq, Eq, Drop)]
pub enum Page {
    Overview,
    Version,
    Check,
    Chart,
    Explain,
    Fmt,
    Why,
    Play,
    Probe,
    Values,
    Branch,
    Park,
    Resume,
    Host,
    Replay,
    Judge,
    Trace,
    Stage,
    Rehearse,
    Drill,
    Compile,
    Enact,
    Certify,
    Help,
}

/// The page on the command of this name, where there is such a command.
pub fn page_of(command: &str) -> Option<Page>
    ensures { result ≡ page_of command.now }
{
    match command {
        "check" => Some(Page::Check),
        "chart" => Some(Page::Chart),
        "explain" => Some(Page::Explain),
        "fmt" => Some(Page::Fmt),
        "why" => Some(Page::Why),
        "play" => Some(Page::Play),
        "probe" => Some(Page::Probe),
        "values" => Some(Page::Values),
        "branch" => Some(Page::Branch),
        "park" => Some(Page::Park),
        "resume" => Some(Page::Resume),
        "host" => Some(Page::Host),
        "replay" => Some(Page::Replay),
        "judge" => Some(Page::Judge),
        "trace" => Some(Page::Trace),
        "stage" => Some(Page::Stage),
        "rehearse" => Some(Page::Rehearse),
        "drill" => Some(Page::Drill),
        "compile" => Some(Page::Compile),
        "enact" => Some(Page::Enact),
        "certify" => Some(Page::Certify),
        "help" => Some(Page::Help),
        _ => None,
    }
}
