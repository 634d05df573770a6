//! The report of a stage as a text.
ghost use Rattle.std.specs.Prelude.{◌≡◌, ◌++◌, IfOk, OnOk, string_bytes};
ghost use Rattle.anb_stage_commands.specs.Reports.{report_text, sent_line};

use anb_base::{NoMemory, Sent};
use std::alloc::Global;

/// A line for each message, and how many there are. It is in memory whole: each byte of a message
/// takes two.
pub(crate) fn report_text(alloc: Global, messages: &[Sent]) -> Result<Vec<u8>, NoMemory>
    ensures { IfOk result (λ text. text.items ≡ report_text messages.now) }
{
    let mut text = Vec::new(alloc);
    for sent in messages {
        put_line(alloc, &mut text, sent)?;
    }
    let last = format!(in alloc; "relayed {}\n", messages.len())?;
    text.extend_from_slice(last.as_bytes())?;
    Ok(text)
}

/// Puts the line of a message at the end.
fn put_line(alloc: Global, text: &mut Vec<u8>, sent: &Sent) -> Result<(), NoMemory>
    ensures { OnOk result (text.new.items ≡ text.old.items ++ sent_line sent.now) }
{
    let line = sent_text(alloc, sent.action, sent.bytes.as_slice())?;
    text.extend_from_slice(line.as_bytes())?;
    Ok(())
}

/// The line of a message.
pub(crate) fn sent_text(alloc: Global, action: u32, bytes: &[u8]) -> Result<String, NoMemory>
    ensures { IfOk result (λ text. string_bytes text
        ≡ sent_line (record { action = action; bytes = bytes.now })) }
{
    let digits = hex::encode(alloc, bytes)?;
    Ok(format!(in alloc; "{action} {}\n", digits.as_str())?)
}
