//! Theorems about chains and clones. The functions do nothing; their contracts are the theorems.
ghost use Rattle.std.specs.Prelude.{◌≡◌, List, ◌++◌, map, reverse};
ghost use Rattle.std.specs.Iterator.{Drains};
ghost use Rattle.miette_tree.specs.laws.BothEnds.{EndItem, Gives, front_of, back_of};
ghost use Rattle.miette_tree.specs.views.RemainingChain.{remaining_chain};
ghost use Rattle.miette_tree.specs.declared.chain.Chain.{Chain};
ghost use Rattle.miette_tree.specs.declared.innermost.ReportKind.{ReportKind};
ghost use Rattle.miette_tree.specs.declared.owned.SourceRef.{SourceRef};
ghost use Rattle.miette_tree.specs.declared.tree.Cause.{Cause};

use crate::chain::Chain;
use crate::innermost::ReportKind;
use crate::owned::SourceRef;
use crate::tree::Cause;
use miette_protocol::protocol::Diagnostic;
use miette_protocol::source::SourceCode;

/// After any sequence of `next` and `next_back` calls, each item of the chain occurs exactly once: first the items
/// taken from the front, then those that are left, then those taken from the back. Calling `next` until the end yields
/// the chain; calling `next_back` yields it in reverse.
pub fn chains_from_both_ends<D: Diagnostic + 'static, S: SourceCode + 'static>()
    ensures once { (chain later : Chain D S) (taken : List (EndItem _))
        → Gives ⟦<Chain<'static, D, S> as Iterator>⟧.next_gives
        ⟦<Chain<'static, D, S> as DoubleEndedIterator>⟧.next_back_gives chain taken later
        → remaining_chain D.meaning S.source chain ≡ front_of (λ x. x.now) taken
        ++ (remaining_chain D.meaning S.source later ++ back_of (λ x. x.now) taken) }
    ensures front { (chain : Chain D S) (items : List _)
        → Drains ⟦<Chain<'static, D, S> as Iterator>⟧.next_gives chain items →
        map (λ x. x.now) items ≡ remaining_chain D.meaning S.source chain }
    ensures back { (chain : Chain D S) (items : List _)
        → Drains ⟦<Chain<'static, D, S> as DoubleEndedIterator>⟧.next_back_gives chain items →
        map (λ x. x.now) items ≡ reverse (remaining_chain D.meaning S.source chain) }
{}

/// Cloning a cause, a kind or a borrowed source returns an equal value and never fails.
pub fn clones_take_no_memory<D: Diagnostic + 'static, S: SourceCode + 'static>()
    ensures same_causes { (a b : Cause D S) → ⟦<Cause<'static, D, S> as Clone>⟧.is_clone a b → b ≡ a }
    ensures same_kinds { (a b : ReportKind D) → ⟦<ReportKind<'static, D> as Clone>⟧.is_clone a b → b ≡ a }
    ensures same_sources { (a b : SourceRef S) → ⟦<SourceRef<'static, S> as Clone>⟧.is_clone a b → b ≡ a }
    ensures causes { (it : Cause D S) → ⟦<Cause<'static, D, S> as Clone>⟧.is_infallible it }
    ensures kinds { (it : ReportKind D) → ⟦<ReportKind<'static, D> as Clone>⟧.is_infallible it }
    ensures sources { (it : SourceRef S) → ⟦<SourceRef<'static, S> as Clone>⟧.is_infallible it }
{}
