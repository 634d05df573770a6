//! The laws.
ghost use Rattle.anb_file_laws.specs.Certified.{CertifiedFilesPlay};
ghost use Rattle.anb_file_laws.specs.Compiled.{CompiledFilesPlay};
ghost use Rattle.anb_file_laws.specs.Narrow.{EnactedMessagesAreNarrow};

use anb_text::{codes_are_unique, faults_are_unique, files_are_unique};

/// A law: a file that `compile` wrote is loaded as the code that was written, and `enact` of it does
/// what `play` does, with the same values.
pub fn compiled_files_play()
    ensures { CompiledFilesPlay }
{
    anb_read::narrations_are_unique();
    anb_read::refusals_are_unique();
    anb_read::none_is_both();
    files_are_unique();
    codes_are_unique();
    anb_text::none_is_both();
    faults_are_unique();
}

/// A law: `enact` of a role file that `certify` certified does what `play` does, with the same values.
pub fn certified_files_play()
    ensures { CertifiedFilesPlay }
{
    anb_read::narrations_are_unique();
    anb_read::refusals_are_unique();
    anb_read::none_is_both();
    files_are_unique();
    codes_are_unique();
    anb_text::none_is_both();
    faults_are_unique();
}

/// A law: no message of a role file is longer than its register's width says.
pub fn enacted_messages_are_narrow()
    ensures { EnactedMessagesAreNarrow }
{
    anb_machine::runs_send_within();
}
