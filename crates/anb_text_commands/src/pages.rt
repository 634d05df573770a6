//! The text of each page.
ghost use Rattle.std.specs.Prelude.{◌≡◌};
ghost use Rattle.anb_text_commands.specs.Pages.{text_of};

use crate::texts;
use anb_help::Page;

/// The text of a page.
pub(crate) fn text_of(page: Page) -> &'static str
    ensures { result.now ≡ text_of page }
{
    match page {
        Page::Overview => texts::OVERVIEW,
        Page::Version => texts::VERSION,
        Page::Check => texts::CHECK,
        Page::Chart => texts::CHART,
        Page::Explain => texts::EXPLAIN,
        Page::Fmt => texts::FMT,
        Page::Why => texts::WHY,
        Page::Play => texts::PLAY,
        Page::Probe => texts::PROBE,
        Page::Values => texts::VALUES,
        Page::Branch => texts::BRANCH,
        Page::Park => texts::PARK,
        Page::Resume => texts::RESUME,
        Page::Host => texts::HOST,
        Page::Replay => texts::REPLAY,
        Page::Judge => texts::JUDGE,
        Page::Trace => texts::TRACE,
        Page::Stage => texts::STAGE,
        Page::Rehearse => texts::REHEARSE,
        Page::Drill => texts::DRILL,
        Page::Compile => texts::COMPILE,
        Page::Enact => texts::ENACT,
        Page::Certify => texts::CERTIFY,
        Page::Help => texts::HELP,
    }
}
