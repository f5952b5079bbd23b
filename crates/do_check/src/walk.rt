//! The walk over expressions and statements. The functions go down the tree together.
#![tactic(auto, using(std::proofs::lemmas::Grind::common_steps, crate::proofs::Append::least_append))]

ghost use Rattle.std.specs.Prelude.{◌≡◌, [], ◌∷◌, IfOk};
ghost use Rattle.do_check.specs.First.{least};
ghost use Rattle.do_check.specs.Parts.{args_faults, base_faults, callback_faults, expr_faults, exprs_faults, for_of_parts, for_parts};
ghost use Rattle.do_check.specs.Parts.{items_faults, link_faults, links_faults, name_faults, operands_faults, option_faults, pairs_faults};
ghost use Rattle.do_check.specs.Parts.{simple_faults, stmt_faults, try_parts};
ghost use Rattle.do_check.specs.Sight.{is_empty, names_of, path_in, role_of, scope_in, stage_of, use_of, with_behind};
ghost use Rattle.do_check.specs.Sorts.{sort_of};
ghost use Rattle.do_tree.specs.Forms.{variable};
ghost use Rattle.do_tree.specs.Names.{is_sync};
ghost use Rattle.do_tree.specs.Nodes.{args_in, block_in, exprs_in, links_in, operands_in, option_expr_in, pairs_in, simple_of, with_arg, with_link};
ghost use Rattle.do_tree.specs.Scope.{after_link, with_option_name};
ghost use Rattle.do_tree.specs.Seen.{expr_of, items_in, named_of, option_named_of, stmt_of, with_item};
ghost use Rattle.do_tree.specs.declared.expr.Callback.{out-Callback};
ghost use Rattle.do_tree.specs.Tree.{Items, no_args, no_links};

use crate::arguments::takes_parameter;
use crate::declared::{Declared, declare, no_sorts};
use crate::doubled::check_block;
use crate::found::{Found, keep_when};
use crate::named::{Names, check_bound, check_option_bound};
use crate::path::{Path, check_root, check_use, root_of};
use crate::scope::{
    Role, Scope, Use, callback_sort, first_use, in_callback, in_loop, inside, with_names,
};
use crate::sort::{Sort, bound_as};
use crate::stage::{Stage, after_call, after_field, after_index, role_of, start, start_name};
use crate::step::check_stage;
use do_tree::{
    Arg, Block, Callback, CheckKind, Expr, Item, Link, MethodKind, Name, Operand, Pair, Simple,
    Stmt, Write,
};
use do_value::Mem;
use std::sync::Arc;

/// Finds the faults of an expression.
#[cycle(walk)]
pub fn walk_expr(scope: &Scope, serves: Use, expr: &Expr, found: Found) -> Mem<Found>
    ensures { IfOk result (λ now. now ≡ least found (expr_faults (scope_in scope.now) (use_of serves) (expr_of expr.now))) }
{
    let found = check_use(scope, serves, expr, found);
    match expr {
        Expr::Choice { test, yes, no, .. } => {
            let found = walk_expr(scope, Use::Value, test, found)?;
            let found = walk_expr(scope, Use::Value, yes, found)?;
            walk_expr(scope, Use::Value, no, found)
        }
        Expr::Lazy { first, rest, .. } => {
            let found = walk_expr(scope, Use::Value, first, found)?;
            walk_exprs(scope, rest, found)
        }
        Expr::Strict { first, rest, .. } => {
            let found = walk_expr(scope, Use::Value, first, found)?;
            walk_operands(scope, rest, found)
        }
        Expr::Unary { value, .. } => walk_expr(scope, Use::Value, value, found),
        Expr::Await { at, value } => {
            let found = keep_when(found, is_sync(scope), *at, CheckKind::AwaitInSync);
            walk_expr(scope, Use::Awaited(*at), value, found)
        }
        Expr::Path { at, base, links } => {
            let path = Path {
                at: *at,
                root: root_of(base),
                serves,
            };
            let found = check_root(scope, path.root, links, found);
            let found = walk_base(scope, base, found)?;
            walk_links(scope, &path, start(&scope.names, base), links, found)
        }
        Expr::This { at } => {
            let path = Path {
                at: *at,
                root: None,
                serves,
            };
            Ok(check_stage(scope, &path, &Stage::Itself, &[], found))
        }
        Expr::Variable(name) => Ok(check_alone(scope, serves, name, found)),
        Expr::Group { inside, .. } => walk_expr(scope, Use::Value, inside, found),
        Expr::List { items, .. } => walk_exprs(scope, items, found),
        Expr::Record { pairs, .. } => walk_pairs(scope, pairs, found),
        Expr::NewError { message, .. } => walk_option(scope, message, found),
        Expr::Number { .. }
        | Expr::Text { .. }
        | Expr::Bool { .. }
        | Expr::Null { .. }
        | Expr::Undefined { .. } => Ok(found),
    }
}

/// Whether no `await` may stand in the scope.
fn is_sync(scope: &Scope) -> bool
    ensures { result ≡ is_sync (scope_in scope.now).method (scope_in scope.now).block }
{
    match scope.method {
        MethodKind::Sync => true,
        MethodKind::Async => false,
        MethodKind::Constructor => !scope.in_block,
    }
}

/// A name alone.
fn check_alone(scope: &Scope, serves: Use, name: &Name, found: Found) -> Found
    ensures { result ≡ least found (name_faults (scope_in scope.now) (use_of serves) (named_of name.now)) }
{
    let path = Path {
        at: name.at,
        root: Some(name),
        serves,
    };
    let found = check_root(scope, path.root, &[], found);
    check_stage(scope, &path, &start_name(&scope.names, name), &[], found)
}

/// What a path begins with, where it is no name and not `this`.
#[cycle(walk)]
fn walk_base(scope: &Scope, base: &Expr, found: Found) -> Mem<Found>
    ensures { IfOk result (λ now. now ≡ least found (base_faults (scope_in scope.now) (expr_of base.now))) }
{
    match base {
        Expr::Variable(_) | Expr::This { .. } => Ok(found),
        _ => walk_expr(scope, Use::Value, base, found),
    }
}

#[cycle(walk)]
fn walk_option(scope: &Scope, expr: &Option<Arc<Expr>>, found: Found) -> Mem<Found>
    ensures { IfOk result (λ now. now ≡ least found (option_faults (scope_in scope.now) (option_expr_in expr.now))) }
{
    match expr {
        Some(expr) => walk_expr(scope, Use::Value, expr, found),
        None => Ok(found),
    }
}

#[cycle(walk)]
fn walk_exprs(scope: &Scope, exprs: &[Arc<Expr>], found: Found) -> Mem<Found>
    ensures { IfOk result (λ now. now ≡ least found (exprs_faults (scope_in scope.now) (exprs_in exprs.now))) }
{
    let mut found = found;
    for expr in exprs {
        found = walk_expr(scope, Use::Value, expr, found)?;
    }
    Ok(found)
}

#[cycle(walk)]
fn walk_operands(scope: &Scope, operands: &[Operand], found: Found) -> Mem<Found>
    ensures { IfOk result (λ now. now ≡ least found (operands_faults (scope_in scope.now) (operands_in operands.now))) }
{
    let mut found = found;
    for operand in operands {
        found = walk_expr(scope, Use::Value, &operand.value, found)?;
    }
    Ok(found)
}

/// The steps of a path from a stage on.
#[cycle(walk)]
#[tactic(auto, using(std::proofs::lemmas::Grind::common_steps, crate::proofs::Append::least_append, crate::proofs::Walked::links_at))]
fn walk_links(scope: &Scope, path: &Path, stage: Stage, links: &[Link], found: Found) -> Mem<Found>
    ensures { IfOk result (λ now. now ≡ least found
        (links_faults (scope_in scope.now) (path_in path.now) (stage_of stage.entry) (links_in links.now))) }
{
    let mut found = found;
    let mut stage = stage;
    for i in 0..links.len() {
        found = check_stage(scope, path, &stage, &links[i..], found);
        found = walk_link(scope, &stage, &links[i], found)?;
        stage = after_link(&scope.names, stage, &links[i]);
    }
    Ok(check_stage(scope, path, &stage, &[], found))
}

/// What a path comes to by a step.
#[tactic(auto, using(std::proofs::lemmas::Grind::common_steps, crate::proofs::Append::least_append, crate::proofs::Walked::call_stage))]
fn after_link<'a>(names: &Names, stage: Stage<'a>, link: &'a Link) -> Stage<'a>
    ensures { stage_of result ≡ after_link (names_of names.now) (stage_of stage.entry) (with_link link.now no_links) }
{
    match link {
        Link::Field(name) => after_field(stage, name),
        Link::Index { .. } => after_index(stage),
        Link::Call { args, .. } => after_call(names, stage, args),
    }
}

/// The parts of a step.
#[cycle(walk)]
fn walk_link(scope: &Scope, stage: &Stage, link: &Link, found: Found) -> Mem<Found>
    ensures { IfOk result (λ now. now ≡ least found (link_faults (scope_in scope.now) (stage_of stage.now) (with_link link.now no_links))) }
{
    match link {
        Link::Field(_) => Ok(found),
        Link::Index { index, .. } => walk_expr(scope, Use::Value, index, found),
        Link::Call { args, .. } => walk_args(scope, role_of(stage), args, found),
    }
}

/// Arguments, of which the first is there for this.
#[cycle(walk)]
#[tactic(auto, using(std::proofs::lemmas::Grind::common_steps, crate::proofs::Append::least_append, crate::proofs::Walked::args_more))]
fn walk_args(scope: &Scope, role: Role, args: &[Arg], found: Found) -> Mem<Found>
    ensures { IfOk result (λ now. now ≡ least found (args_faults (scope_in scope.now) (role_of role) (args_in args.now))) }
{
    let mut found = found;
    let mut role = role;
    for arg in args {
        found = walk_arg(scope, role, arg, found)?;
        role = Role::Plain;
    }
    Ok(found)
}

#[cycle(walk)]
fn walk_arg(scope: &Scope, role: Role, arg: &Arg, found: Found) -> Mem<Found>
    ensures { IfOk result (λ now. now ≡ least found (args_faults (scope_in scope.now) (role_of role) (with_arg arg.now no_args))) }
{
    match arg {
        Arg::Value(value) => walk_expr(scope, first_use(role), value, found),
        Arg::Callback(callback) => walk_callback(scope, role, callback, found),
    }
}

#[cycle(walk)]
fn walk_callback(scope: &Scope, role: Role, callback: &Callback, found: Found) -> Mem<Found>
    ensures { IfOk result (λ now. now ≡ least found (callback_faults (scope_in scope.now) (role_of role) (out-Callback callback.now).at
        (option_named_of (out-Callback callback.now).parameter) (block_in (out-Callback callback.now).body.value))) }
{
    let found = keep_when(
        found,
        !takes_parameter(role, &callback.parameter),
        callback.at,
        CheckKind::Form,
    );
    let found = check_option_bound(&callback.parameter, found);
    let found = check_block(scope.alloc, &callback.body.items, found)?;
    let scope = in_callback(scope, role);
    match &callback.parameter {
        Some(name) => {
            let names = Names::Bound {
                name,
                sort: callback_sort(role),
                outer: &scope.names,
            };
            walk_items(&with_names(&scope, names), &callback.body.items, found)
        }
        None => walk_items(&scope, &callback.body.items, found),
    }
}

#[cycle(walk)]
#[tactic(auto, using(std::proofs::lemmas::Grind::common_steps, crate::proofs::Append::least_append, crate::proofs::Walked::pairs_more))]
fn walk_pairs(scope: &Scope, pairs: &[Pair], found: Found) -> Mem<Found>
    ensures { IfOk result (λ now. now ≡ least found (pairs_faults (scope_in scope.now) (pairs_in pairs.now))) }
{
    let mut found = found;
    for pair in pairs {
        found = walk_pair(scope, pair, found)?;
    }
    Ok(found)
}

#[cycle(walk)]
#[tactic(auto, using(std::proofs::lemmas::Grind::common_steps, crate::proofs::Append::least_append, crate::proofs::Walked::pair_none))]
fn walk_pair(scope: &Scope, pair: &Pair, found: Found) -> Mem<Found>
    ensures { IfOk result (λ now. now ≡ least found (pairs_faults (scope_in scope.now) (pairs_in (pair.now ∷ [])))) }
{
    match &pair.value {
        Some(value) => walk_expr(scope, Use::Value, value, found),
        None => Ok(check_alone(scope, Use::Value, &pair.key, found)),
    }
}

/// The items of a block. Each sees the names that those before it declare.
#[cycle(walk)]
#[tactic(auto, using(std::proofs::lemmas::Grind::common_steps, crate::proofs::Append::least_append, crate::proofs::Walked::behind_at, crate::proofs::Walked::drop_at, crate::proofs::Walked::last_empty))]
pub fn walk_items(scope: &Scope, items: &[Item], found: Found) -> Mem<Found>
    ensures { IfOk result (λ now. now ≡ least found (items_faults (scope_in scope.now) (items_in items.now))) }
{
    let mut sorts = no_sorts(scope.alloc);
    let mut found = found;
    for i in 0..items.len() {
        let block = Declared::new(&items[..i], &sorts);
        let names = Names::Declared {
            block: &block,
            outer: &scope.names,
        };
        let is_last = items[i + 1..].is_empty();
        found = walk_item(&with_names(&*scope, names), &items[i], is_last, found)?;
        declare(scope.alloc, &mut sorts, &items[i])?;
    }
    Ok(found)
}

#[cycle(walk)]
fn walk_item(scope: &Scope, item: &Item, is_last: bool, found: Found) -> Mem<Found>
    ensures { IfOk result (λ now. (rest : Items) → is_last ≡ is_empty rest
        → least now (items_faults (with_behind item.now (scope_in scope.now)) rest)
        ≡ least found (items_faults (scope_in scope.now) (with_item item.now rest))) }
{
    match item {
        Item::Declare { name, value, .. } => {
            let found = check_bound(name, found);
            walk_option(scope, value, found)
        }
        Item::Stmt(stmt) => {
            if is_last {
                walk_stmt(scope, stmt, found)
            } else {
                walk_stmt(&inside(scope), stmt, found)
            }
        }
    }
}

#[cycle(walk)]
#[tactic(auto, using(std::proofs::lemmas::Grind::common_steps, crate::proofs::Append::least_append, do_tree::proofs::Rows::hidden_items, do_tree::proofs::Rows::hidden_option))]
fn walk_stmt(scope: &Scope, stmt: &Stmt, found: Found) -> Mem<Found>
    ensures { IfOk result (λ now. now ≡ least found (stmt_faults (scope_in scope.now) (stmt_of stmt.now))) }
{
    match stmt {
        Stmt::Block(block) => {
            let found = check_block(scope.alloc, &block.items, found)?;
            walk_items(&inside(scope), &block.items, found)
        }
        Stmt::If {
            test,
            then,
            other,
            ..
        } => {
            let found = walk_expr(scope, Use::Value, test, found)?;
            let scope = inside(scope);
            let found = walk_stmt(&scope, then, found)?;
            match other {
                Some(other) => walk_stmt(&scope, other, found),
                None => Ok(found),
            }
        }
        Stmt::While { test, body, .. } => {
            let found = walk_expr(scope, Use::Value, test, found)?;
            walk_stmt(&in_loop(&*scope, scope.names), body, found)
        }
        Stmt::For {
            name,
            first,
            test,
            step,
            body,
            ..
        } => walk_for(scope, name, first, test, step, body, found),
        Stmt::ForOf {
            binding,
            name,
            list,
            body,
            ..
        } => walk_for_of(scope, bound_as(*binding), name, list, body, found),
        Stmt::Try {
            body,
            name,
            handler,
            ..
        } => walk_try(scope, body, name, handler, found),
        Stmt::Throw { value, .. } => walk_expr(scope, Use::Value, value, found),
        Stmt::Return { value, .. } => walk_option(scope, value, found),
        Stmt::Break { at } | Stmt::Continue { at } => {
            Ok(keep_when(found, !scope.in_loop, *at, CheckKind::LoopExit))
        }
        Stmt::Simple(simple) => walk_simple(scope, simple, found),
    }
}

/// A loop with a first value, a test and a step, which all but the first value see its variable.
#[cycle(walk)]
fn walk_for(
    scope: &Scope,
    name: &Name,
    first: &Expr,
    test: &Expr,
    step: &Simple,
    body: &Stmt,
    found: Found,
) -> Mem<Found>
    ensures { IfOk result (λ now. now ≡ least found
        (for_parts (scope_in scope.now) (named_of name.now) (expr_of first.now) (expr_of test.now) (simple_of step.now) (stmt_of body.now))) }
{
    let found = check_bound(name, found);
    let found = walk_expr(scope, Use::Value, first, found)?;
    let names = Names::Bound {
        name,
        sort: Sort::Variable,
        outer: &scope.names,
    };
    let inner = with_names(&*scope, names);
    let found = walk_expr(&inner, Use::Value, test, found)?;
    let found = walk_simple(&inside(&inner), step, found)?;
    walk_stmt(&in_loop(&inner, names), body, found)
}

/// A loop over a list, whose body sees the name of the item.
#[cycle(walk)]
fn walk_for_of(
    scope: &Scope,
    sort: Sort,
    name: &Name,
    list: &Expr,
    body: &Stmt,
    found: Found,
) -> Mem<Found>
    ensures { IfOk result (λ now. now ≡ least found
        (for_of_parts (scope_in scope.now) (sort_of sort) (named_of name.now) (expr_of list.now) (stmt_of body.now))) }
{
    let found = check_bound(name, found);
    let found = walk_expr(scope, Use::Value, list, found)?;
    let names = Names::Bound {
        name,
        sort,
        outer: &scope.names,
    };
    walk_stmt(&in_loop(&*scope, names), body, found)
}

/// A block whose throws are caught, and the handler that catches them.
#[cycle(walk)]
fn walk_try(
    scope: &Scope,
    body: &Block,
    name: &Option<Name>,
    handler: &Block,
    found: Found,
) -> Mem<Found>
    ensures { IfOk result (λ now. now ≡ least found
        (try_parts (scope_in scope.now) (block_in body.now) (option_named_of name.now) (block_in handler.now))) }
{
    let scope = inside(scope);
    let found = check_block(scope.alloc, &body.items, found)?;
    let found = walk_items(&scope, &body.items, found)?;
    let found = check_option_bound(name, found);
    let found = check_block(scope.alloc, &handler.items, found)?;
    walk_handler(&scope, name, &handler.items, found)
}

/// The items of a handler, with the name of what was caught.
#[cycle(walk)]
fn walk_handler(scope: &Scope, name: &Option<Name>, items: &[Item], found: Found) -> Mem<Found>
    ensures { IfOk result (λ now. now ≡ least found
        (items_faults (with_option_name (scope_in scope.now) variable (option_named_of name.now)) (items_in items.now))) }
{
    match name {
        Some(name) => {
            let names = Names::Bound {
                name,
                sort: Sort::Variable,
                outer: &scope.names,
            };
            walk_items(&with_names(&*scope, names), items, found)
        }
        None => walk_items(scope, items, found),
    }
}

#[cycle(walk)]
fn walk_simple(scope: &Scope, simple: &Simple, found: Found) -> Mem<Found>
    ensures { IfOk result (λ now. now ≡ least found (simple_faults (scope_in scope.now) (simple_of simple.now))) }
{
    match &simple.write {
        Write::Nothing => walk_expr(scope, Use::Alone, &simple.place, found),
        Write::Value(value) | Write::Sum(value) | Write::Difference(value) => {
            let found = walk_expr(scope, Use::Written, &simple.place, found)?;
            walk_expr(scope, Use::Value, value, found)
        }
        Write::OneMore | Write::OneLess => walk_expr(scope, Use::Written, &simple.place, found),
    }
}
