// Which functions may be entered and left, and which calls may begin and end.

ghost use Rattle.std.specs.Prelude.{◌≡◌, ◌&&◌, true, false, Some, None, IsTrue, MatchOption};
ghost use Rattle.history_spec.specs.Instruction.{bits_at};
ghost use Rattle.record_replay_spec.specs.declared.hooks.Hook.TheVariants.{Arg, Enter, Leave, Pre, Post, Ipre, Ipost};
ghost use Rattle.record_replay_spec.specs.Known.{entry_of};
ghost use Rattle.record_replay_spec.specs.Order.{may_be_over, may_enter, pending_are};
ghost use Rattle.hook_order.specs.Orders.{callee_of, IsEntryCall, LeadsTo, parts_called, parts_closed, parts_entered, parts_pending, state_of, step_from};
ghost use Rattle.hook_order.specs.Shapes.{shape_from};

use crate::access::EntryCall;
use crate::args;
use crate::frames::Frame;
use crate::hook_values::value_reported;
use crate::order::Order;
use crate::types::are_of_types;
use hook_names::{View, original};
use wasm_syntax::Val;

impl Order {
    /// The value that `Arg` passes.
    #[inline]
    pub fn value(&self, args: &[Val]) -> Option<Val>
        ensures { MatchOption result (LeadsTo self.now Arg args.now None)
            (λ value. LeadsTo self.now Arg args.now (Some (parts_pending self.now value))) }
    {
        let (byte, bits) = args::two(args)?;
        value_reported(byte, bits)
    }

    /// The function that `Enter` enters.
    #[inline]
    pub fn entered_function(&self, args: &[Val]) -> Option<u32>
        ensures { MatchOption result (LeadsTo self.now Enter args.now None)
            (λ func. bits_at args.now 0 ≡ func × LeadsTo self.now Enter args.now (Some (parts_entered self.now func))) }
    {
        let func = args::one(args)?;
        if self.shape.is_defined(func) && self.enters(func as u32) {
            Some(func as u32)
        } else {
            None
        }
    }

    /// Whether a function may be entered with the pending values.
    fn enters(&self, func: u32) -> bool
        ensures { result ≡ (pending_are (state_of 0 self.now) (λ ty. ty.params)
            ((shape_from self.now.shape).type_of func) && may_enter (shape_from self.now.shape) func self.now.frames) }
    {
        self.takes(func) && self.may_enter(func)
    }

    /// Whether the pending values fit the parameters of a function.
    fn takes(&self, func: u32) -> bool
        ensures { result ≡ pending_are (state_of 0 self.now) (λ ty. ty.params)
            ((shape_from self.now.shape).type_of func) }
    {
        match self.shape.func_type(func) {
            Some(ty) => are_of_types(ty.params.as_slice(), self.pending.as_slice()),
            None => false,
        }
    }

    /// Whether the pending values fit the results of a function.
    fn gives(&self, func: u32) -> bool
        ensures { result ≡ pending_are (state_of 0 self.now) (λ ty. ty.results)
            ((shape_from self.now.shape).type_of func) }
    {
        match self.shape.func_type(func) {
            Some(ty) => are_of_types(ty.results.as_slice(), self.pending.as_slice()),
            None => false,
        }
    }

    /// Whether a function may be entered in the innermost frame.
    fn may_enter(&self, func: u32) -> bool
        ensures { result ≡ may_enter (shape_from self.now.shape) func self.now.frames }
    {
        match self.frames.top() {
            None => true,
            Some(
                Frame::Call {
                    callee: Some(callee),
                    entered,
                    ..
                },
            ) => callee < self.shape.imports() || (callee == func && !entered),
            Some(_) => false,
        }
    }

    /// Whether a call of a function may end with the pending values as its results.
    fn may_be_over(&self, callee: u32, entered: bool) -> bool
        ensures { result ≡ (pending_are (state_of 0 self.now) (λ ty. ty.results)
            ((shape_from self.now.shape).type_of callee) && may_be_over (shape_from self.now.shape) callee entered) }
    {
        self.gives(callee) && (callee < self.shape.imports() || entered)
    }

    /// The function that `Leave` leaves.
    #[inline]
    pub fn left_function(&self, args: &[Val]) -> Option<u32>
        ensures { MatchOption result (LeadsTo self.now Leave args.now None)
            (λ func. bits_at args.now 0 ≡ func × LeadsTo self.now Leave args.now (Some (parts_closed self.now))) }
    {
        let func = args::one(args)?;
        match self.frames.top() {
            Some(Frame::Function(top)) if u64::from(top) == func && self.pending.is_empty() => Some(
                top,
            ),
            _ => None,
        }
    }

    /// The function that `Pre` reports.
    #[inline]
    pub fn called_function(&self, args: &[Val]) -> Option<u32>
        ensures { MatchOption result (LeadsTo self.now Pre args.now None)
            (λ func. bits_at args.now 0 ≡ func
            × LeadsTo self.now Pre args.now (Some (parts_called self.now true (Some func)))) }
    {
        let func = args::one(args)?;
        if self.may_report() && self.shape.is_function(func) {
            Some(func as u32)
        } else {
            None
        }
    }

    /// Whether `Post` may end a call.
    #[inline]
    pub fn ends(&self, args: &[Val]) -> bool
        ensures may { IsTrue result → LeadsTo self.now Post args.now (Some (parts_closed self.now)) }
        ensures not { result ≡ false → LeadsTo self.now Post args.now None }
    {
        let Some(func) = args::one(args) else {
            return false;
        };
        match self.frames.top() {
            Some(
                Frame::Call {
                    direct: true,
                    callee: Some(callee),
                    entered,
                },
            ) => u64::from(callee) == func && self.may_be_over(callee, entered),
            _ => false,
        }
    }

    /// Whether `Ipost` may end a call.
    #[inline]
    pub fn ends_by_table(&self, args: &[Val]) -> bool
        ensures may { IsTrue result → LeadsTo self.now Ipost args.now (Some (parts_closed self.now)) }
        ensures not { result ≡ false → LeadsTo self.now Ipost args.now None }
    {
        if !args::none(args) {
            return false;
        }
        match self.frames.top() {
            Some(
                Frame::Call {
                    direct: false,
                    callee: Some(callee),
                    entered,
                },
            ) => self.may_be_over(callee, entered),
            _ => false,
        }
    }

    /// The index that `Ipre` reports, and the function of the original that the entry holds; the table is known
    /// to have at least `known` entries.
    #[inline]
    pub fn called_by_table(&self, args: &[Val], known: u32, view: &View) -> Option<EntryCall>
        ensures { MatchOption result
            (step_from known self.now (record { kind = Ipre; args = args.now; view = view.now }) ≡ None)
            (IsEntryCall self.now args.now known view.now) }
    {
        let index = args::one(args)?;
        if !self.may_report() || view.table_size() < known {
            return None;
        }
        let callee = self.callee_at(index, view)?;
        Some(EntryCall { index, callee })
    }

    /// The function of the original that an entry holds, or `Some(None)` if it holds no function; `None` if it
    /// holds any other.
    fn callee_at(&self, index: u64, view: &View) -> Option<Option<u32>>
        ensures { result ≡ callee_of (shape_from self.now.shape) (entry_of view.now.table index) }
    {
        match entry_at(view, index) {
            None => Some(None),
            Some(func) => match original(self.shape.imports(), func) {
                Some(origin) if self.shape.is_function(u64::from(origin)) => Some(Some(origin)),
                _ => None,
            },
        }
    }
}

/// The function in an entry, or `None` if the entry is empty or does not exist.
#[tactic(auto, using(crate::proofs::Entries::entry_past, crate::proofs::Entries::entry_there))]
fn entry_at(view: &View, index: u64) -> Option<u32>
    ensures { result ≡ entry_of view.now.table index }
{
    if index >= u64::from(view.table_size()) {
        return None;
    }
    match view.entry(index as u32) {
        Some(entry) => entry,
        None => None,
    }
}
