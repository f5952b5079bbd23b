//! Where a part of a script stands.
#![tactic(auto, using(std::proofs::lemmas::Grind::common_steps, crate::proofs::Append::least_append))]

ghost use Rattle.std.specs.Prelude.{◌≡◌};
ghost use Rattle.do_check.specs.Sight.{names_of, role_of, scope_in, use_of};
ghost use Rattle.do_check.specs.Sorts.{sort_of};
ghost use Rattle.do_tree.specs.Scope.{callback_scope, callback_sort, first_use, in_loop, inside};

use crate::methods::Methods;
use crate::named::Names;
use crate::sort::Sort;
use do_tree::MethodKind;
use std::alloc::Global;

/// The class and the kind of the method around, the names in sight, whether a loop is around inside the method or
/// callback, a transaction's body, a block's body, and whether what stands here ends a constructor.
#[derive(Clone, Copy)]
pub struct Scope<'a> {
    pub alloc: Global,
    pub methods: &'a Methods<'a>,
    pub method: MethodKind,
    pub names: Names<'a>,
    pub in_loop: bool,
    pub in_transaction: bool,
    pub in_block: bool,
    pub last: bool,
}

/// What the first argument of a call is there for.
#[derive(Clone, Copy, Debug, PartialEq, Eq)]
pub enum Role {
    Plain,
    /// The identifier of an object.
    Identifier,
    /// The body of a transaction.
    Transaction,
    /// The body of a block.
    Block,
}

/// What an expression serves for.
#[derive(Clone, Copy, Debug, PartialEq, Eq)]
pub enum Use {
    /// Its value.
    Value,
    /// The operand of the `await` at this place.
    Awaited(u32),
    /// A statement of its own.
    Alone,
    /// The place of a write.
    Written,
    /// The identifier of an object.
    Identifier,
}

/// Inside a statement.
pub fn inside<'a>(scope: &Scope<'a>) -> Scope<'a>
    ensures { scope_in result ≡ inside (scope_in scope.now) }
{
    Scope {
        last: false,
        ..*scope
    }
}

/// The scope with these names in sight.
pub fn with_names<'a>(scope: &Scope<'a>, names: Names<'a>) -> Scope<'a>
    ensures { scope_in result ≡ record (scope_in scope.now) { names = names_of names.entry } }
{
    Scope { names, ..*scope }
}

/// Inside a loop, with these names in sight.
pub fn in_loop<'a>(scope: &Scope<'a>, names: Names<'a>) -> Scope<'a>
    ensures { scope_in result ≡ in_loop (record (scope_in scope.now) { names = names_of names.entry }) }
{
    Scope {
        names,
        in_loop: true,
        last: false,
        ..*scope
    }
}

/// Inside a callback that is there for this.
pub fn in_callback<'a>(scope: &Scope<'a>, role: Role) -> Scope<'a>
    ensures { scope_in result ≡ callback_scope (role_of role) (scope_in scope.now) }
{
    match role {
        Role::Transaction => Scope {
            in_loop: false,
            in_transaction: true,
            last: false,
            ..*scope
        },
        Role::Block => Scope {
            in_loop: false,
            in_block: true,
            last: false,
            ..*scope
        },
        Role::Plain | Role::Identifier => Scope {
            in_loop: false,
            last: false,
            ..*scope
        },
    }
}

/// What the parameter of a callback is that is there for this.
pub fn callback_sort(role: Role) -> Sort
    ensures { sort_of result ≡ callback_sort (role_of role) }
{
    match role {
        Role::Transaction => Sort::Transacting,
        Role::Plain | Role::Identifier | Role::Block => Sort::Variable,
    }
}

/// What the first argument of a call serves for.
pub fn first_use(role: Role) -> Use
    ensures { use_of result ≡ first_use (role_of role) }
{
    match role {
        Role::Identifier => Use::Identifier,
        Role::Plain | Role::Transaction | Role::Block => Use::Value,
    }
}
