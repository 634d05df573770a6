//! The chart of a choice.
ghost use Rattle.std.specs.Prelude.{◌≡◌, ◌<◌, ◌^◌, ◌++◌, length, map, IfOk, OnOk};
ghost use Rattle.std.specs.List.{flat_map};
ghost use Rattle.anb_term.specs.View.{tree_of};
ghost use Rattle.anb_protocol.specs.Laws.{HoldsOf};
ghost use Rattle.anb_protocol.specs.Plans.{names_made};
ghost use Rattle.anb_protocol.specs.Texts.{IsTermOf};
ghost use Rattle.anb_protocol.specs.Views.{action_value};
ghost use Rattle.anb_chart.specs.Charts.{action_lines, note_line, participant_line};
ghost use Rattle.anb_choice.specs.Views.{branched_of};
ghost use Rattle.anb_chart_commands.specs.ChoiceCharts.{arm_line, arm_word, arms_lines, choice_chart, is_between, lines_between, part_lines, stem_lines, stem_of};

use anb_base::{NoMemory, Text};
use anb_chart::{participant_text, put_arrow, put_participant};
use anb_choice::Branched;
use anb_protocol::{Action, Names, Protocol, protocols_hold};
use itoa::Buffer;
use std::alloc::Global;

/// The chart of a choice: its stem, and each arm in a part of a block.
pub(crate) fn choice_chart(alloc: Global, b: &Branched) -> Result<Vec<u8>, NoMemory>
    requires { length b.now.arms.items < 2 ^ 32 }
    ensures { IfOk result (λ v. v.items ≡ choice_chart (branched_of b.now)) }
{
    let mut out = Vec::from_slice(alloc, b"sequenceDiagram\n")?;
    put_stem(alloc, &mut out, b.stem, b.arms.as_slice())?;
    put_arms(alloc, &mut out, &b.chooser, b.stem, b.arms.as_slice())?;
    Ok(out)
}

/// Appends the participants of the first arm, and the lines of its first actions, so many.
fn put_stem(alloc: Global, out: &mut Vec<u8>, stem: u32, arms: &[Protocol]) -> Result<(), NoMemory>
    ensures { OnOk result (out.new.items ≡ out.old.items ++ stem_lines stem arms.now) }
{
    match arms {
        [] => Ok(()),
        [first, ..] => put_stem_of(alloc, out, stem, first),
    }
}

fn put_stem_of(alloc: Global, out: &mut Vec<u8>, stem: u32, arm: &Protocol) -> Result<(), NoMemory>
    ensures { OnOk result (out.new.items ≡ out.old.items ++ stem_of stem arm.now) }
{
    put_participants(alloc, out, arm.roles())?;
    put_lines(alloc, out, arm, 0, stem)?;
    Ok(())
}

/// Appends a line for each role.
fn put_participants(alloc: Global, out: &mut Vec<u8>, roles: &[Text]) -> Result<(), NoMemory>
    ensures { OnOk result (out.new.items
        ≡ out.old.items ++ flat_map participant_line roles.now) }
{
    for role in roles {
        let text = participant_text(alloc, role)?;
        out.extend_from_slice(&text)?;
    }
    Ok(())
}

/// Appends each arm behind so many actions, and the end of the block.
fn put_arms(
    alloc: Global,
    out: &mut Vec<u8>,
    chooser: &Text,
    stem: u32,
    arms: &[Protocol],
) -> Result<(), NoMemory>
    requires { length arms.now < 2 ^ 32 }
    ensures { OnOk result (out.new.items
        ≡ out.old.items ++ arms_lines chooser.now stem 1 arms.now) }
{
    for i in 0..arms.len() {
        put_arm_line(out, chooser, i + 1)?;
        put_arm(alloc, out, stem, &arms[i])?;
    }
    out.extend_from_slice(b"    end\n")?;
    Ok(())
}

/// Appends the lines of an arm, behind so many actions.
fn put_arm(alloc: Global, out: &mut Vec<u8>, stem: u32, arm: &Protocol) -> Result<(), NoMemory>
    ensures { OnOk result (out.new.items
        ≡ out.old.items ++ lines_between arm.now stem (length arm.now.actions)) }
{
    put_lines(alloc, out, arm, stem, arm.actions())
}

/// Appends the line that begins an arm.
fn put_arm_line(out: &mut Vec<u8>, chooser: &Text, number: usize) -> Result<(), NoMemory>
    ensures { OnOk result (out.new.items ≡ out.old.items ++ arm_line chooser.now number) }
{
    let mut digits = Buffer::new();
    out.extend_from_slice(b"    ")?;
    out.extend_from_slice(arm_word(number))?;
    out.extend_from_slice(chooser.as_str().as_bytes())?;
    out.extend_from_slice(b" chooses arm ")?;
    out.extend_from_slice(digits.format(number).as_bytes())?;
    out.push(b'\n')?;
    Ok(())
}

/// What begins the part of a block for the arm of this number.
fn arm_word(number: usize) -> &'static [u8]
    ensures { result.now ≡ arm_word number }
{
    if number == 1 { b"alt " } else { b"else " }
}

/// Appends the lines of the actions behind the first ones, so many, up to those of another number.
fn put_lines(
    alloc: Global,
    out: &mut Vec<u8>,
    protocol: &Protocol,
    from: u32,
    to: u32,
) -> Result<(), NoMemory>
    ensures { OnOk result (out.new.items ≡ out.old.items ++ lines_between protocol.now from to) }
{
    let made = protocol.made(alloc)?;
    protocols_hold();
    put_actions(alloc, out, protocol, protocol.messages(), &made, from, to)
}

/// Appends them, where these are the protocol's actions, whose senders make these names.
fn put_actions(
    alloc: Global,
    out: &mut Vec<u8>,
    protocol: &Protocol,
    actions: &[Action],
    made: &[Names],
    from: u32,
    to: u32,
) -> Result<(), NoMemory>
    requires actions { map action_value actions.now ≡ protocol.now.actions }
    requires made { made.now ≡ names_made protocol.now }
    requires holds { HoldsOf protocol.now }
    ensures { OnOk result (out.new.items ≡ out.old.items ++ lines_between protocol.now from to) }
{
    for (i, action) in actions.iter().enumerate() {
        let names = made[i].as_slice();
        put_part(alloc, out, protocol, from, to, i as u32 + 1, action, names)?;
    }
    Ok(())
}

/// Appends the lines of an action with this number, where it is one of these.
fn put_part(
    alloc: Global,
    out: &mut Vec<u8>,
    protocol: &Protocol,
    from: u32,
    to: u32,
    number: u32,
    action: &Action,
    names: &[Text],
) -> Result<(), NoMemory>
    requires from { action.now.from < length protocol.now.roles }
    requires to { action.now.to < length protocol.now.roles }
    requires term { IsTermOf protocol.now (tree_of action.now.message) }
    ensures { OnOk result (out.new.items ≡ out.old.items
        ++ part_lines protocol.now from to number (action_value action.now) names.now) }
{
    if !is_between(from, to, number) {
        return Ok(());
    }
    put_action(alloc, out, protocol, number, action, names)
}

/// Whether the action of this number is behind the first ones, so many, and up to those of another
/// number.
fn is_between(from: u32, to: u32, number: u32) -> bool
    ensures { result ≡ is_between from to number }
{
    from < number && number <= to
}

/// Appends the lines of an action with this number, whose sender makes these names.
fn put_action(
    alloc: Global,
    out: &mut Vec<u8>,
    protocol: &Protocol,
    number: u32,
    action: &Action,
    names: &[Text],
) -> Result<(), NoMemory>
    requires from { action.now.from < length protocol.now.roles }
    requires to { action.now.to < length protocol.now.roles }
    requires term { IsTermOf protocol.now (tree_of action.now.message) }
    ensures { OnOk result (out.new.items ≡ out.old.items
        ++ action_lines protocol.now number (action_value action.now) names.now) }
{
    put_note(out, protocol, action, names)?;
    put_arrow(alloc, out, protocol, number, action)?;
    Ok(())
}

/// Appends the note of the names that an action's sender makes.
fn put_note(
    out: &mut Vec<u8>,
    protocol: &Protocol,
    action: &Action,
    names: &[Text],
) -> Result<(), NoMemory>
    requires { action.now.from < length protocol.now.roles }
    ensures { OnOk result (out.new.items
        ≡ out.old.items ++ note_line protocol.now (action_value action.now) names.now) }
{
    let [first, rest @ ..] = names else {
        return Ok(());
    };
    out.extend_from_slice(b"    Note over ")?;
    put_participant(out, protocol, action.from)?;
    out.extend_from_slice(b": new ")?;
    out.extend_from_slice(first.as_str().as_bytes())?;
    for name in rest {
        out.extend_from_slice(b", ")?;
        out.extend_from_slice(name.as_str().as_bytes())?;
    }
    out.push(b'\n')?;
    Ok(())
}
