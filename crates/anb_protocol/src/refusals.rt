//! Why a narration is no protocol.
use anb_base::Text;
use anb_format::FormatNo;

/// What is counted.
#[derive(Clone, Copy, Debug, PartialEq, Eq, Drop)]
pub enum Kind {
    /// The bytes of a name.
    Name,
    /// The formats.
    Formats,
    /// The fields of a format.
    Fields,
    /// The roles.
    Roles,
    /// The actions.
    Actions,
    /// The nodes of a term.
    TermNodes,
    /// The nodes of all knowledge and messages together.
    AllNodes,
}

/// Where a term stands: in what a role knows, or in the message of an action, numbered from 1.
#[derive(Debug, Drop)]
pub enum Item {
    Know(Text),
    Action(u32),
}

/// Why a narration is no protocol.
#[derive(Debug, Drop)]
pub enum ResolveNo {
    /// A count, which is above its limit.
    Limit(Kind, u32),
    /// A name that is declared a second time, or has a second line of knowledge.
    Twice(Text),
    /// A name that is used and not declared.
    Unknown(Text),
    /// A format that stands without arguments, another name with arguments, or a name in the place
    /// of a role that is no agent.
    WrongSort(Text),
    /// A format with another number of arguments than fields.
    WrongCount(Text),
    /// A format whose pieces make none.
    FormatShape(Text, FormatNo),
    /// Two formats that aren't apart, the earlier one first.
    Overlap(Text, Text),
    /// An action, numbered from 1, whose sender is its receiver.
    SelfSend(u32),
    /// A role, and the text of a term that stands twice in what it knows.
    KnowledgeTwice(Text, Text),
    /// A term that has a subterm wider than `WIDE`.
    Wide(Item),
    NoMemory,
}
