//! Codes that were verified.
ghost use Rattle.std.specs.Prelude.{◌≡◌, ◌≢◌, ◌<◌, ◌+◌, ◌^◌, length, count_by, All, IfOk, OnOk, IfErr};
ghost use Rattle.anb_code.specs.Spelling.{code_of};
ghost use Rattle.anb_code.specs.Table.{HasCounts, IsAccepted, IsFirstFault, written};
ghost use Rattle.anb_code.specs.Taking.{is_taking};

use crate::checks::{check_code, check_formats};
use crate::spelling::{formats_of, instrs_of};
use crate::uses::last_uses;
use crate::{CodeNo, Instr, RawCode};
use anb_base::{ARRIVAL, NoMemory, Suite, Text, WIDE};
use anb_format::Format;
use std::alloc::Global;
use std::marker::Model;

/// A code that was verified.
#[derive(Debug, Drop)]
pub struct RoleCode {
    protocol: Text,
    role: Text,
    suite: Suite,
    formats: Vec<Format>,
    instrs: Vec<Instr>,
    last_uses: Vec<u32>,
}

impl Model for RoleCode {
    ghost use Rattle.anb_base.specs.declared.TheConstants.{ARRIVAL, WIDE};
    ghost use Rattle.anb_code.specs.CodeValue.{CodeValue};
    ghost use Rattle.anb_code.specs.Uses.{AreLastUses};
    ghost use Rattle.anb_code.specs.Verified.{IsVerifiedCode};

    ghost Value = { CodeValue };

    ghost view = { λ c. record {
      protocol = c.protocol;
      role = c.role;
      suite = c.suite;
      formats = c.formats.items;
      instrs = c.instrs.items;
    } };

    ghost invariant = { λ c. record {
      verified : IsVerifiedCode ARRIVAL WIDE (record {
        protocol = c.protocol;
        role = c.role;
        suite = c.suite;
        formats = c.formats.items;
        instrs = c.instrs.items;
      });
      uses : AreLastUses c.formats.items c.instrs.items c.last_uses.items;
    } };
}

/// Checks a code. Its formats are looked at first, in order, and then its instructions; the first
/// fault decides. A code that is accepted is made of the same names, formats and instructions.
pub fn verify(alloc: Global, raw: RawCode) -> Result<RoleCode, CodeNo>
    requires counts { All HasCounts raw.code }
    requires formats { length raw.formats + 1 < 2 ^ 32 }
    requires pieces { All (λ format. length format.pieces < 2 ^ 32) raw.formats }
    requires instrs { length raw.code + 1 < 2 ^ 32 }
    requires destinations { length (written raw.code) + 1 < 2 ^ 32 }
    ensures accepted { OnOk result (IsAccepted ARRIVAL WIDE raw) }
    ensures code { IfOk result (λ code. code ≡ code_of raw) }
    ensures refused { IfErr result (λ no. no ≢ CodeNo.NoMemory → IsFirstFault ARRIVAL WIDE raw no) }
{
    let RawCode {
        protocol,
        role,
        suite,
        formats,
        code,
    } = raw;
    check_formats(&formats)?;
    let formats = formats_of(alloc, formats)?;
    check_code(alloc, &formats, &code)?;
    let instrs = instrs_of(alloc, &formats, code)?;
    Ok(RoleCode::new(alloc, protocol, role, suite, formats, instrs)?)
}

impl RoleCode {
    ghost use Rattle.std.specs.Prelude.{◌≡◌, ◌<◌, length, slice_get, Some, IfOk};
    ghost use Rattle.anb_code.specs.Taking.{count_fresh, take_texts};
    ghost use Rattle.anb_code.specs.Uses.{AreLastUses};
    ghost use Rattle.anb_code.specs.Verified.{IsVerifiedCode};

    /// The code of these parts, of which it is known that they make a verified one. It looks at each
    /// operand once.
    pub fn new(
        alloc: Global,
        protocol: Text,
        role: Text,
        suite: Suite,
        formats: Vec<Format>,
        instrs: Vec<Instr>,
    ) -> Result<Self, NoMemory>
        requires { IsVerifiedCode ARRIVAL WIDE (record {
          protocol = protocol;
          role = role;
          suite = suite;
          formats = formats.items;
          instrs = instrs.items;
        }) }
        ensures protocol { IfOk result (λ code. code.protocol ≡ protocol) }
        ensures role { IfOk result (λ code. code.role ≡ role) }
        ensures suite { IfOk result (λ code. code.suite ≡ suite) }
        ensures formats { IfOk result (λ code. code.formats ≡ formats.items) }
        ensures instrs { IfOk result (λ code. code.instrs ≡ instrs.items) }
    {
        let last_uses = last_uses(alloc, &formats, &instrs)?;
        Ok(RoleCode {
            protocol,
            role,
            suite,
            formats,
            instrs,
            last_uses,
        })
    }

    pub fn protocol(&self) -> &Text
        ensures { result.now ≡ self.now.protocol }
    {
        &self.protocol
    }

    pub fn role(&self) -> &Text
        ensures { result.now ≡ self.now.role }
    {
        &self.role
    }

    pub fn suite(&self) -> Suite
        ensures { result ≡ self.now.suite }
    {
        self.suite
    }

    /// The instructions, which were verified over the code's formats.
    pub fn instrs(&self) -> &[Instr]
        ensures instrs { result.now ≡ self.now.instrs }
        ensures verified { IsVerifiedCode ARRIVAL WIDE self.now }
    {
        self.instrs.as_slice()
    }

    pub fn formats(&self) -> &[Format]
        ensures formats { result.now ≡ self.now.formats }
        ensures verified { IsVerifiedCode ARRIVAL WIDE self.now }
    {
        self.formats.as_slice()
    }

    /// For each register, how many instructions there are up to the last that reads it.
    pub fn last_uses(&self) -> &[u32]
        ensures { AreLastUses self.now.formats self.now.instrs result.now }
    {
        self.last_uses.as_slice()
    }

    /// How many takes there are, which stand first.
    pub fn takes(&self) -> u32
        ensures { result ≡ length (take_texts self.now.instrs) }
    {
        count_takes(&self.instrs) as u32
    }

    /// The label text of a take, from 0.
    pub fn take_text(&self, i: u32) -> &Text
        requires { i < length (take_texts self.now.instrs) }
        ensures { Some result.now ≡ slice_get (take_texts self.now.instrs) i }
    {
        let Instr::Take(text) = &self.instrs[i as usize] else {
            unreachable!()
        };
        text
    }

    /// How many nonces it draws.
    pub fn fresh(&self) -> u32
        ensures { result ≡ count_fresh self.now.instrs }
    {
        self.instrs
            .iter()
            .filter(|instr| matches!(instr, Instr::Fresh))
            .count() as u32
    }
}

fn count_takes(instrs: &[Instr]) -> usize
    ensures { result ≡ count_by is_taking instrs.now }
{
    instrs
        .iter()
        .filter(|instr| matches!(instr, Instr::Take(_)))
        .count()
}
