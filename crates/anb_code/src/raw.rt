//! A code that wasn't verified.
use anb_base::{Suite, Text};
use anb_format::Piece;
use std::marker::Model;

/// A name and pieces that may be no format.
#[derive(Debug, Drop)]
pub struct RawFormat {
    pub name: Text,
    pub pieces: Vec<Piece>,
}

impl Model for RawFormat {
    ghost use Rattle.anb_format.specs.Formats.{FormatValue};

    ghost Value = { FormatValue };

    ghost view = { λ f. record { name = f.name; pieces = f.pieces.items } };
}

/// What an instruction does.
#[derive(Clone, Copy, Debug, PartialEq, Eq, Drop)]
pub enum What {
    Take,
    Fresh,
    Recv,
    Hash,
    Mac,
    Seal,
    Unseal,
    Wrap,
    Unwrap,
    Build,
    Parse,
    Equal,
    Send,
}

/// An instruction as it is written: the registers that it writes, what it does, a name, and the
/// registers that it reads. The name is the label text of a take, the format of a build or a parse,
/// and empty otherwise.
#[derive(Debug, Drop)]
pub struct RawInstr {
    pub to: Vec<u32>,
    pub what: What,
    pub name: Text,
    pub args: Vec<u32>,
}

impl Model for RawInstr {
    ghost use Rattle.anb_code.specs.RawValue.{RawInstrValue};

    ghost Value = { RawInstrValue };

    ghost view = { λ i. record {
      to = i.to.items;
      what = i.what;
      name = i.name;
      args =
          i.args.items;
    } };
}

/// A code that wasn't verified.
#[derive(Debug, Drop)]
pub struct RawCode {
    pub protocol: Text,
    pub role: Text,
    pub suite: Suite,
    pub formats: Vec<RawFormat>,
    pub code: Vec<RawInstr>,
}

impl Model for RawCode {
    ghost use Rattle.anb_code.specs.RawValue.{RawValue};

    ghost Value = { RawValue };

    ghost view = { λ r. record {
      protocol = r.protocol;
      role = r.role;
      suite = r.suite;
      formats =
          r.formats.items;
      code = r.code.items;
    } };
}
