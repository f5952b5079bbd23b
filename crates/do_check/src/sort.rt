//! What a name in sight stands for.
#![tactic(auto, using(std::proofs::lemmas::Grind::common_steps, crate::proofs::Append::least_append))]

ghost use Rattle.std.specs.Prelude.{◌≡◌};
ghost use Rattle.do_check.specs.Sorts.{bound_sort, sort_of};
ghost use Rattle.do_tree.specs.Scope.{parameter_sort};

use do_tree::{Binding, MethodKind};

/// What a name in sight stands for.
#[derive(Clone, Copy, Debug, PartialEq, Eq)]
pub enum Sort {
    Variable,
    Constant,
    /// The handle of a transaction.
    Transacting,
    /// The context that a constructor is given.
    GivenCtx,
    /// The environment that a constructor is given.
    GivenEnv,
}

/// What a declaration makes of its name.
pub fn bound_as(binding: Binding) -> Sort
    ensures { result ≡ bound_sort binding }
{
    match binding {
        Binding::Let => Sort::Variable,
        Binding::Const => Sort::Constant,
    }
}

/// What a parameter of this name is in a method of this kind.
pub fn parameter_sort(kind: MethodKind, name: &str) -> Sort
    ensures { sort_of result ≡ parameter_sort kind name.now }
{
    match kind {
        MethodKind::Constructor => {
            if "ctx" == name {
                Sort::GivenCtx
            } else {
                Sort::GivenEnv
            }
        }
        MethodKind::Sync | MethodKind::Async => Sort::Variable,
    }
}
