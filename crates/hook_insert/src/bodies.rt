// Instrumented bodies.

ghost use Rattle.std.specs.Prelude.{◌≡◌, ◌<◌, List, ◌++◌, ◌∷◌, [], flat_map, length, slice_get, IsTrue, IfOk, OnOk};
ghost use Rattle.wasm_syntax.specs.declared.instructions.Instr.{Instr as Instruction};
ghost use Rattle.wasm_syntax.specs.declared.instructions.Instr.TheVariants.{Block, End};
ghost use Rattle.wasm_syntax.specs.Profile as profile;
ghost use Rattle.record_replay_spec.specs.Insertions.{imports_at, inserted_at_end, inserted_at_enter, reports_params};
ghost use Rattle.record_replay_spec.specs.Instrumented.{renumbered, weightless};
ghost use Rattle.hook_insert.specs.Rounds.{AreCallsWithin, code_weights, instrumented_code, is_call_within, round, weights_round};
ghost use Rattle.wasm_flat.specs.Sizes.{list_limit};

use crate::sites::BodySite;
use base::NoMemory;
use record_replay_spec::Hook;
use wasm_syntax::{FuncType, Instr, Item, ValType};

impl<'a> BodySite<'a> {
    /// Appends the instrumented body of a function of this type.
    pub(crate) fn push_body(
        &self,
        code: &mut Vec<Instr>,
        weights: &mut Vec<u8>,
        ty: &FuncType,
        body: &[Instr],
    ) -> Result<(), NoMemory>
        requires params { length ty.now.params < list_limit }
        requires calls { AreCallsWithin list_limit body.now }
        ensures code { OnOk result (code.new.items ≡ code.old.items ++ instrumented_code self.now ty.now body.now) }
        ensures weights { OnOk result (weights.new.items ≡ weights.old.items ++ code_weights self.now ty.now body.now) }
    {
        self.push_start(code, weights, ty)?;
        self.push_rounds(code, weights, body)?;
        self.push_end(code, weights)
    }

    /// Appends what comes before a body: hook calls that report the parameters and the entry, and then a block.
    fn push_start(
        &self,
        code: &mut Vec<Instr>,
        weights: &mut Vec<u8>,
        ty: &FuncType,
    ) -> Result<(), NoMemory>
        requires { length ty.now.params < list_limit }
        ensures code { OnOk result (code.new.items
            ≡ code.old.items ++ (inserted_at_enter self.now ty.now.params ++ Block (slice_get ty.now.results 0) ∷ [])) }
        ensures weights { OnOk result (weights.new.items
            ≡ weights.old.items ++ (weightless (inserted_at_enter self.now ty.now.params) ++ 0 ∷ [])) }
    {
        let first = code.len();
        self.push_enter(code, ty.params.as_slice())?;
        let count = code.len() - first;
        code.push(Instr::Block(ty.results.as_slice().first().copied()))?;
        push_zeros(weights, count)?;
        weights.push(0)?;
        Ok(())
    }

    /// Appends hook calls that report the parameters and the entry into the function.
    fn push_enter(&self, code: &mut Vec<Instr>, params: &[ValType]) -> Result<(), NoMemory>
        requires { length params.now < list_limit }
        ensures { OnOk result (code.new.items ≡ code.old.items ++ inserted_at_enter self.now params.now) }
    {
        self.push_params(code, params)?;
        self.push_number(code, Hook::Enter, self.func())
    }

    /// Appends hook calls that report the parameters.
    fn push_params(&self, code: &mut Vec<Instr>, params: &[ValType]) -> Result<(), NoMemory>
        requires { length params.now < list_limit }
        ensures { OnOk result (code.new.items ≡ code.old.items ++ reports_params self.now 0 params.now) }
    {
        'params: for (local, ty) in params.iter().enumerate() {
            self.push_local(code, *ty, local as u32)?;
        }
        Ok(())
    }

    /// Appends the instructions of a body, each with the instructions inserted around it.
    fn push_rounds(
        &self,
        code: &mut Vec<Instr>,
        weights: &mut Vec<u8>,
        body: &[Instr],
    ) -> Result<(), NoMemory>
        requires { AreCallsWithin list_limit body.now }
        ensures code { OnOk result (code.new.items ≡ code.old.items ++ flat_map (round self.now) body.now) }
        ensures weights { OnOk result (weights.new.items
            ≡ weights.old.items ++ flat_map (weights_round self.now) body.now) }
    {
        'body: for instr in body {
            self.push_round(code, weights, instr)?;
        }
        Ok(())
    }

    /// Appends an instruction with the instructions inserted around it.
    fn push_round(
        &self,
        code: &mut Vec<Instr>,
        weights: &mut Vec<u8>,
        instr: &Instr,
    ) -> Result<(), NoMemory>
        requires { IsTrue (is_call_within list_limit instr.now) }
        ensures code { OnOk result (code.new.items ≡ code.old.items ++ round self.now instr.now) }
        ensures weights { OnOk result (weights.new.items ≡ weights.old.items ++ weights_round self.now instr.now) }
    {
        let first = code.len();
        self.push_before(code, instr)?;
        let own = code.len();
        code.push(self.renumbered_instr(instr)?)?;
        let after = code.len();
        self.push_after(code, instr)?;
        if is_numbered(instr) {
            push_weights(weights, own - first, code.len() - after)?;
        }
        Ok(())
    }

    /// An instruction with its function renumbered.
    fn renumbered_instr(&self, instr: &Instr) -> Result<Instr, NoMemory>
        requires { IsTrue (is_call_within list_limit instr.now) }
        ensures { IfOk result (λ own. own ≡ renumbered (imports_at self.now) instr.now) }
    {
        match instr {
            Instr::Call(func) => Ok(Instr::Call(self.new_index(*func))),
            other => other.copy(),
        }
    }

    /// Appends what comes at the end of a body: a hook call that reports the exit.
    fn push_end(&self, code: &mut Vec<Instr>, weights: &mut Vec<u8>) -> Result<(), NoMemory>
        ensures code { OnOk result (code.new.items ≡ code.old.items ++ (inserted_at_end self.now ++ End ∷ [])) }
        ensures weights { OnOk result (weights.new.items ≡ weights.old.items ++ weightless (inserted_at_end self.now)) }
    {
        self.push_number(code, Hook::Leave, self.func())?;
        code.push(Instr::End)?;
        push_zeros(weights, 2)
    }
}

/// Whether an instruction has a number.
fn is_numbered(instr: &Instr) -> bool
    ensures { result ≡ profile.is_numbered instr.now }
{
    !matches!(instr, Instr::Else | Instr::End)
}

/// Appends the weights of an instruction with `before` and `after` others inserted around it.
fn push_weights(weights: &mut Vec<u8>, before: usize, after: usize) -> Result<(), NoMemory>
    ensures { (front back : List Instruction) → length front ≡ before → length back ≡ after → OnOk result
        (weights.new.items ≡ weights.old.items ++ (weightless front ++ 1 ∷ weightless back)) }
{
    push_zeros(weights, before)?;
    weights.push(1)?;
    push_zeros(weights, after)
}

/// Appends the weights of `count` inserted instructions.
fn push_zeros(weights: &mut Vec<u8>, count: usize) -> Result<(), NoMemory>
    ensures { (is : List Instruction) → length is ≡ count
        → OnOk result (weights.new.items ≡ weights.old.items ++ weightless is) }
{
    for _ in 0..count {
        weights.push(0)?;
    }
    Ok(())
}
