//! Expressions that have nothing of their own besides the one in them.
ghost use Rattle.std.specs.Prelude.{◌≡◌, ◌<◌, Bool, false, None, IfOk, IfSome};
ghost use Rattle.do_tree.specs.Seen.{expr_of};
ghost use Rattle.script_mean.specs.Calls.{Calls};
ghost use Rattle.script_mean.specs.Meaning.{value};
ghost use Rattle.script_steps.specs.Parts.{IsBare, coats};
ghost use Rattle.script_steps.specs.Paths.{is_present};

use crate::node::again;
use crate::path::Await;
use do_tree::Expr;
use do_value::Mem;
use std::sync::Arc;

/// The expression, and whether it is the operand of an await, without the brackets and the chains of one operand that stand
/// around it. Nothing is charged for these.
pub fn bare(awaited: Await, expr: Arc<Expr>) -> Mem<(Await, Arc<Expr>)>
    ensures same { IfOk result (λ r. (calls : Calls)
        → value (is_present awaited) calls (expr_of expr.value) ≡ value (is_present r.0) calls (expr_of r.1.value)) }
    ensures bare { IfOk result (λ r. IsBare (expr_of r.1.value)) }
{
    let mut around = awaited;
    let mut inner = expr;
    while let Some(within) = inside(&inner) {
        let next = again(within)?;
        inner = next;
        around = Await::Absent;
    }
    Ok((around, inner))
}

// What stands in an expression that has nothing of its own.
fn inside(expr: &Expr) -> Option<&Arc<Expr>>
    ensures same { (awaited : Bool) (calls : Calls) → IfSome result (λ e. value awaited calls (expr_of expr.now) ≡ value false calls (expr_of e.now.value)) }
    ensures bare { result ≡ None → IsBare (expr_of expr.now) }
    ensures less { IfSome result (λ e. coats (expr_of e.now.value) < coats (expr_of expr.now)) }
{
    match expr {
        Expr::Group { inside, .. } => Some(inside),
        Expr::Lazy { first, rest, .. } => { if rest.is_empty() { Some(first) } else { None } }
        Expr::Strict { first, rest, .. } => { if rest.is_empty() { Some(first) } else { None } }
        _ => None,
    }
}
