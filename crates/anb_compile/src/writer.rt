//! The code of a role while it is written, and the instructions for compositions and checks.
ghost use Rattle.std.specs.Prelude.{◌≡◌, List, length, IsTrue, None, true, false};
ghost use Rattle.anb_format.specs.Formats.{FormatValue};
ghost use Rattle.anb_term.specs.Operator.{arity, keys as keys_of, undoable};
ghost use Rattle.anb_algebra.specs.ByteMeaning.{has_operator};
ghost use Rattle.anb_plays.specs.Codes.{works, make, undo};
ghost use Rattle.anb_code.specs.Meaning.{act_of};
ghost use Rattle.anb_code.specs.Taking.{taken_text};
ghost use Rattle.anb_compile.specs.Verifying.{IsMaking, IsUndoing};
ghost use Rattle.anb_compile.specs.Counted.{is_building};

use crate::built::{Built, key_of};
use anb_base::{NoMemory, Text};
use anb_basis::Check;
use anb_close::{Compositions, Made};
use anb_code::{Instr, Registers};
use anb_term::Op;
use std::alloc::Global;

/// A code while it is written: the instructions, the number of the next register, the register of
/// each entry of the role's basis, and what was built.
#[derive(Drop)]
pub(crate) struct Writer {
    pub(crate) code: Vec<Instr>,
    pub(crate) next: u32,
    pub(crate) places: Vec<u32>,
    pub(crate) built: Built,
}

impl Writer {
    ghost use Rattle.std.specs.Prelude.{◌≡◌, ◌+◌, ◌*◌, ◌^◌, ◌<◌, ◌≤◌, ◌++◌, ◌∷◌, [], ℕ, List, None, length, Bool, IfOk, OnOk};
    ghost use Rattle.std.specs.List.{range_with_len, AllByRecursion};
    ghost use Rattle.anb_term.specs.declared.term.Op.{Op};
    ghost use Rattle.anb_term.specs.Tree.{trees_of, tree_size, trees_size};
    ghost use Rattle.anb_term.specs.Value.{RecipeTree};
    ghost use Rattle.anb_close.specs.MadeView.{made_tree};
    ghost use Rattle.anb_code.specs.Taking.{take_texts};
    ghost use Rattle.anb_compile.specs.Writing.{IsOver, AreOver, Composes, ComposesEach, IsCheckOf, AreChecksOf, Asks, count_opened, count_all_opened};
    ghost use Rattle.anb_compile.specs.Verifying.{GrowsBy, Lays, LaysEach, LaysChecks, room_for};
    ghost use Rattle.anb_compile.specs.Sharing.{register_at};
    ghost use Rattle.anb_compile.specs.Once.{Builds, BuiltStays, Shares, SharesEach, SharesChecks};

    pub(crate) fn new(alloc: Global) -> Self
        ensures code { result.code.items ≡ [] }
        ensures next { result.next ≡ 0 }
        ensures places { result.places.items ≡ [] }
        ensures built { (keys : List ℕ) → register_at result.built keys ≡ None }
    {
        Writer {
            code: Vec::new(alloc),
            next: 0,
            places: Vec::new(alloc),
            built: Built::new(alloc),
        }
    }

    /// Writes an instruction.
    fn put(&mut self, instr: Instr) -> Result<(), NoMemory>
        ensures next { self.new.next ≡ self.old.next }
        ensures places { self.new.places ≡ self.old.places }
        ensures built { self.new.built ≡ self.old.built }
        ensures code { OnOk result (self.new.code.items ≡ self.old.code.items ++ instr ∷ []) }
    {
        self.code.push(instr)?;
        Ok(())
    }

    /// Takes the number of the next register.
    fn register(&mut self) -> u32
        requires { self.old.next + 1 < 2 ^ 32 }
        ensures code { self.new.code ≡ self.old.code }
        ensures places { self.new.places ≡ self.old.places }
        ensures built { self.new.built ≡ self.old.built }
        ensures register { result ≡ self.old.next }
        ensures next { self.new.next ≡ self.old.next + 1 }
    {
        let register = self.next;
        self.next += 1;
        register
    }

    /// Writes an instruction that writes the next register, and gives its number.
    fn put_written(&mut self, instr: Instr) -> Result<u32, NoMemory>
        requires { self.old.next + 1 < 2 ^ 32 }
        ensures places { self.new.places ≡ self.old.places }
        ensures built { self.new.built ≡ self.old.built }
        ensures code { OnOk result (self.new.code.items ≡ self.old.code.items ++ instr ∷ []) }
        ensures register { IfOk result (λ r. r ≡ self.old.next) }
        ensures next { OnOk result (self.new.next ≡ self.old.next + 1) }
    {
        self.put(instr)?;
        Ok(self.register())
    }

    /// Takes an initial value with this label text into the next register.
    pub(crate) fn take(&mut self, text: Text) -> Result<(), NoMemory>
        requires { self.old.next + 1 < 2 ^ 32 }
        ensures places { self.new.places ≡ self.old.places }
        ensures built { self.new.built ≡ self.old.built }
        ensures code { OnOk result
            (self.new.code.items ≡ self.old.code.items ++ Instr.Take text ∷ []) }
        ensures next { OnOk result (self.new.next ≡ self.old.next + 1) }
    {
        let _ = self.put_written(Instr::Take(text))?;
        Ok(())
    }

    /// The next entry is in this register.
    pub(crate) fn place(&mut self, register: u32) -> Result<(), NoMemory>
        ensures code { self.new.code ≡ self.old.code }
        ensures next { self.new.next ≡ self.old.next }
        ensures built { self.new.built ≡ self.old.built }
        ensures places { OnOk result
            (self.new.places.items ≡ self.old.places.items ++ register ∷ []) }
    {
        self.places.push(register)?;
        Ok(())
    }

    /// Writes an instruction whose register is that of the next entry.
    pub(crate) fn put_label(&mut self, instr: Instr) -> Result<(), NoMemory>
        requires { self.old.next + 1 < 2 ^ 32 }
        ensures built { self.new.built ≡ self.old.built }
        ensures code { OnOk result (self.new.code.items ≡ self.old.code.items ++ instr ∷ []) }
        ensures next { OnOk result (self.new.next ≡ self.old.next + 1) }
        ensures places { OnOk result
            (self.new.places.items ≡ self.old.places.items ++ self.old.next ∷ []) }
    {
        let register = self.put_written(instr)?;
        self.place(register)
    }

    /// Sends a register.
    pub(crate) fn send(&mut self, register: u32) -> Result<(), NoMemory>
        ensures next { self.new.next ≡ self.old.next }
        ensures places { self.new.places ≡ self.old.places }
        ensures built { self.new.built ≡ self.old.built }
        ensures code { OnOk result
            (self.new.code.items ≡ self.old.code.items ++ Instr.Send register ∷ []) }
    {
        self.put(Instr::Send(register))
    }

    /// The next registers are those of the next entries.
    fn place_next(&mut self, count: u16) -> Result<(), NoMemory>
        requires { self.old.next + count < 2 ^ 32 }
        ensures code { self.new.code ≡ self.old.code }
        ensures built { self.new.built ≡ self.old.built }
        ensures next { OnOk result (self.new.next ≡ self.old.next + count) }
        ensures places { OnOk result
            (self.new.places.items ≡ self.old.places.items ++ range_with_len self.old.next count) }
    {
        for _done in 0..count {
            let register = self.register();
            self.places.push(register)?;
        }
        Ok(())
    }

    /// The register of an operator on registers: what was built so, or else the next one.
    fn build(&mut self, alloc: Global, op: Op, at: Vec<u32>) -> Result<u32, NoMemory>
        requires count { length at.items ≡ arity op }
        requires room { self.old.next + 1 < 2 ^ 32 }
        ensures places { self.new.places ≡ self.old.places }
        ensures builds { IfOk result (Builds self.old self.new op at.items) }
    {
        let key = key_of(alloc, op, &at)?;
        match self.built.find(&key) {
            Some(register) => Ok(register),
            None => {
                let register = self.put_written(made_instr(op, at))?;
                self.built.keep(key, register)?;
                Ok(register)
            }
        }
    }

    /// Writes what composes, and gives its register.
    #[cycle(compose)]
    pub(crate) fn compose(&mut self, alloc: Global, made: &Made) -> Result<u32, NoMemory>
        requires over { (has : Op → Bool)
            × IsOver has (length self.old.places.items) (made_tree made.now) }
        requires room { self.old.next + tree_size (made_tree made.now) < 2 ^ 32 }
        ensures places { self.new.places ≡ self.old.places }
        ensures texts { OnOk result
            (take_texts self.new.code.items ≡ take_texts self.old.code.items) }
        ensures composes { IfOk result (Composes self.old self.new (made_tree made.now)) }
        ensures lays { IfOk result (Lays self.old self.new (made_tree made.now)) }
        ensures shares { IfOk result (Shares self.old self.new (made_tree made.now)) }
        ensures stays { OnOk result (BuiltStays self.old self.new) }
        ensures grows { OnOk result (GrowsBy self.old self.new (tree_size (made_tree made.now))) }
    {
        match made {
            Made::Entry(n) => Ok(self.places[*n as usize]),
            Made::Build(op, operands) => {
                let at = self.compose_all(alloc, operands)?;
                let register = self.build(alloc, *op, at)?;
                Ok(register)
            }
        }
    }

    /// Writes what composes each of these, and gives their registers.
    #[cycle(compose)]
    fn compose_all(&mut self, alloc: Global, made: &Compositions) -> Result<Vec<u32>, NoMemory>
        requires over { (has : Op → Bool)
            × AreOver has (length self.old.places.items) (trees_of made.now) }
        requires room { self.old.next + trees_size (trees_of made.now) < 2 ^ 32 }
        ensures places { self.new.places ≡ self.old.places }
        ensures texts { OnOk result
            (take_texts self.new.code.items ≡ take_texts self.old.code.items) }
        ensures count { IfOk result (λ rs. length rs.items ≡ length made.now) }
        ensures compose { IfOk result (λ rs. ComposesEach self.old self.new made.now rs.items) }
        ensures lay { IfOk result (λ rs. LaysEach self.old self.new made.now rs.items) }
        ensures share { IfOk result (λ rs. SharesEach self.old self.new made.now rs.items) }
        ensures stays { OnOk result (BuiltStays self.old self.new) }
        ensures grows { OnOk result (GrowsBy self.old self.new (trees_size (trees_of made.now))) }
    {
        let mut at = Vec::new(alloc);
        for m in made.as_slice() {
            at.push(self.compose(alloc, m)?)?;
        }
        Ok(at)
    }

    /// Writes a check.
    fn check(&mut self, alloc: Global, check: &Check) -> Result<(), NoMemory>
        requires over { (has : Op → Bool) × (entries : List RecipeTree)
            × IsCheckOf has entries (length self.old.places.items) check.now }
        requires room { self.old.next + room_for check.now < 2 ^ 32 }
        ensures places { OnOk result
            (length self.new.places.items ≡ length self.old.places.items + count_opened check.now) }
        ensures texts { OnOk result
            (take_texts self.new.code.items ≡ take_texts self.old.code.items) }
        ensures asks { OnOk result (Asks self.old self.new (check.now ∷ [])) }
        ensures lays { OnOk result (LaysChecks self.old self.new (check.now ∷ [])) }
        ensures shares { OnOk result (SharesChecks self.old self.new (check.now ∷ [])) }
        ensures grows { OnOk result (GrowsBy self.old self.new (room_for check.now)) }
    {
        match check {
            Check::Open(x) => {
                let keys = self.compose_all(alloc, &x.keys)?;
                let of = self.places[x.of as usize];
                self.put(undone_instr(x.op, &keys, of))?;
                self.place_next(x.op.arity().saturating_sub(x.op.keys()))?;
                Ok(())
            }
            Check::Equal(n, made) => {
                let register = self.compose(alloc, made)?;
                let entry = self.places[*n as usize];
                self.put(Instr::Equal(entry, register))?;
                Ok(())
            }
        }
    }

    /// Writes checks, in order, each of which takes at most 1,025 instructions and registers.
    pub(crate) fn checks(&mut self, alloc: Global, checks: &[Check]) -> Result<(), NoMemory>
        requires over { (has : Op → Bool) × (entries : List RecipeTree)
            × AreChecksOf has entries (length self.old.places.items) checks.now }
        requires small { AllByRecursion (λ check. room_for check ≤ 1025) checks.now }
        requires room { self.old.next + 1025 * length checks.now < 2 ^ 32 }
        ensures places { OnOk result
            (length self.new.places.items
            ≡ length self.old.places.items + count_all_opened checks.now) }
        ensures texts { OnOk result
            (take_texts self.new.code.items ≡ take_texts self.old.code.items) }
        ensures asks { OnOk result (Asks self.old self.new checks.now) }
        ensures lays { OnOk result (LaysChecks self.old self.new checks.now) }
        ensures shares { OnOk result (SharesChecks self.old self.new checks.now) }
        ensures grows { OnOk result (GrowsBy self.old self.new (1025 * length checks.now)) }
    {
        for check in checks {
            self.check(alloc, check)?;
        }
        Ok(())
    }
}

/// The instruction of an operator on registers.
fn made_instr(op: Op, at: Vec<u32>) -> Instr
    requires { length at.items ≡ arity op }
    ensures act { (formats : List FormatValue) → act_of formats result ≡ works (make op at.items) }
    ensures other { taken_text result ≡ None }
    ensures making { IsMaking op at.items result }
    ensures building { is_building result ≡ true }
{
    match op {
        Op::Hash => Instr::Hash(at[0]),
        Op::Mac => Instr::Mac(at[0], at[1]),
        Op::Seal => Instr::Seal(at[0], at[1]),
        Op::Wrap => Instr::Wrap(at[0], at[1], at[2]),
        Op::Format { index, .. } => Instr::Build(index, Registers::new(at)),
    }
}

/// The instruction of undoing a register with keys.
fn undone_instr(op: Op, keys: &[u32], of: u32) -> Instr
    requires count { length keys.now ≡ keys_of op }
    requires can { IsTrue (undoable op) }
    ensures act { (formats : List FormatValue) → IsTrue (has_operator formats op)
        → act_of formats result ≡ works (undo op keys.now of) }
    ensures other { taken_text result ≡ None }
    ensures undoing { IsUndoing op keys.now of result }
    ensures building { is_building result ≡ false }
{
    match op {
        Op::Seal => Instr::Unseal(keys[0], of),
        Op::Wrap => Instr::Unwrap(keys[0], keys[1], of),
        Op::Format { index, .. } => Instr::Parse(index, of),
        Op::Hash | Op::Mac => unreachable!(),
    }
}
