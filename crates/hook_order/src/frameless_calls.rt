// The calls that leave all frames unchanged, and whether they may come.

ghost use Rattle.std.specs.Prelude.{◌≡◌, ◌&&◌, ◌∷◌, [], true, false, Some, None, IsTrue, MatchOption, option_map, slice_get};
ghost use Rattle.wasm_syntax.specs.declared.values.ValType.TheVariants.{I32};
ghost use Rattle.record_replay_spec.specs.declared.hooks.Hook.TheVariants.{Load, Store as ToStore, Size, Grow, Gget, Gset, Copy, Fill};
ghost use Rattle.history_spec.specs.Instruction.{bits_at};
ghost use Rattle.record_replay_spec.specs.Order.{fits_global, may_report};
ghost use Rattle.record_replay_spec.specs.Logs.{value_of_global};
ghost use Rattle.hook_order.specs.Args.{AreArgs};
ghost use Rattle.hook_order.specs.Orders.{IsAccess, IsGlobal, LeadsTo, state_of};

use crate::access::{Access, ReportedGlobal};
use crate::args;
use crate::hook_values::{fits_global, is_width};
use crate::order::Order;
use wasm_syntax::Val;

impl Order {
    /// Whether a call that needs a memory may come.
    #[inline(always)]
    fn may_use_memory(&self) -> bool
        ensures { result ≡ (may_report (state_of 0 self.now) && self.now.shape.memory) }
    {
        self.may_report() && self.shape.has_memory()
    }

    /// The access of `Load`.
    #[inline(always)]
    pub fn load_access(&self, args: &[Val]) -> Option<Access>
        ensures { MatchOption result (LeadsTo self.now Load args.now None)
            (λ access. IsAccess args.now access × LeadsTo self.now Load args.now (Some self.now)) }
    {
        let (base, offset, width) = args::three(args)?;
        if self.may_use_memory() && is_width(width) {
            Some(Access {
                base,
                offset,
                width,
            })
        } else {
            None
        }
    }

    /// The access of `Store`, and the bits that are stored.
    #[inline(always)]
    pub fn store_access(&self, args: &[Val]) -> Option<(Access, u64)>
        ensures { MatchOption result (LeadsTo self.now ToStore args.now None)
            (λ found. IsAccess args.now found.0 × (bits_at args.now 3 ≡ found.1)
            × LeadsTo self.now ToStore args.now (Some self.now)) }
    {
        let (base, offset, width, bits) = args::four(args)?;
        if self.may_use_memory() && is_width(width) {
            Some((
                Access {
                    base,
                    offset,
                    width,
                },
                bits,
            ))
        } else {
            None
        }
    }

    /// Whether `Size` may come.
    #[inline]
    pub fn sees_size(&self, args: &[Val]) -> bool
        ensures may { IsTrue result → LeadsTo self.now Size args.now (Some self.now) }
        ensures not { result ≡ false → LeadsTo self.now Size args.now None }
    {
        args::none(args) && self.may_use_memory()
    }

    /// Whether `Grow` may come.
    #[inline]
    pub fn grows(&self, args: &[Val]) -> bool
        ensures may { IsTrue result → LeadsTo self.now Grow args.now (Some self.now) }
        ensures not { result ≡ false → LeadsTo self.now Grow args.now None }
    {
        args::one(args).is_some() && self.may_use_memory()
    }

    /// The target, the source and the count that `Copy` reports.
    #[inline]
    pub fn copy_args(&self, args: &[Val]) -> Option<(u64, u64, u64)>
        ensures { MatchOption result (LeadsTo self.now Copy args.now None)
            (λ a. AreArgs (I32 ∷ I32 ∷ I32 ∷ []) args.now (a.0 ∷ a.1 ∷ a.2 ∷ [])
            × LeadsTo self.now Copy args.now (Some self.now)) }
    {
        let found = args::three(args)?;
        if self.may_use_memory() {
            Some(found)
        } else {
            None
        }
    }

    /// The target, the value and the count that `Fill` reports.
    #[inline]
    pub fn fill_args(&self, args: &[Val]) -> Option<(u64, u64, u64)>
        ensures { MatchOption result (LeadsTo self.now Fill args.now None)
            (λ a. AreArgs (I32 ∷ I32 ∷ I32 ∷ []) args.now (a.0 ∷ a.1 ∷ a.2 ∷ [])
            × LeadsTo self.now Fill args.now (Some self.now)) }
    {
        let found = args::three(args)?;
        if self.may_use_memory() {
            Some(found)
        } else {
            None
        }
    }

    /// The global, with its value, that `Gget` reports.
    #[inline]
    pub fn read_global(&self, args: &[Val]) -> Option<ReportedGlobal>
        ensures { MatchOption result (LeadsTo self.now Gget args.now None)
            (λ reported. IsGlobal self.now args.now reported.global reported.value
            × LeadsTo self.now Gget args.now (Some self.now)) }
    {
        let (global, bits) = args::two(args)?;
        self.reported_global(global, bits)
    }

    /// The global, with its value, that `Gset` reports.
    #[inline]
    pub fn set_global(&self, args: &[Val]) -> Option<ReportedGlobal>
        ensures { MatchOption result (LeadsTo self.now Gset args.now None)
            (λ reported. IsGlobal self.now args.now reported.global reported.value
            × LeadsTo self.now Gset args.now (Some self.now)) }
    {
        let (global, bits) = args::two(args)?;
        self.reported_global(global, bits)
    }

    /// A global with its bits, if it may be reported.
    fn reported_global(&self, global: u64, bits: u64) -> Option<ReportedGlobal>
        ensures { let ty = slice_get self.now.shape.globals global
            in MatchOption result ((may_report (state_of 0 self.now) && fits_global ty bits) ≡ false)
            (λ reported. ((may_report (state_of 0 self.now) && fits_global ty bits) ≡ true) × (reported.global ≡ global)
            × (option_map (λ ty. value_of_global ty bits) ty ≡ Some reported.value)) }
    {
        let ty = self.shape.global(global)?;
        if self.may_report() && fits_global(Some(ty), bits) {
            Some(ReportedGlobal {
                global: global as u32,
                value: Val { ty: ty.ty, bits },
            })
        } else {
            None
        }
    }
}
