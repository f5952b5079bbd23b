//! Calls of helpers: methods of the object itself.
ghost use Rattle.std.specs.Prelude.{◌≡◌, ◌<◌, [], ◌∷◌, IfOk, option_map};
ghost use Rattle.std.specs.List.{find};
ghost use Rattle.do_tree.specs.Lookup.{is_named};
ghost use Rattle.do_tree.specs.Seen.{class_of, method_of};
ghost use Rattle.do_value.specs.Seen.{tree_of, trees_in};
ghost use Rattle.script_mean.specs.declared.limits.TheConstants.{MOST_HELPERS};
ghost use Rattle.script_mean.specs.Errors.{nested_too_deep};
ghost use Rattle.script_mean.specs.Meaning.{method_scope};
ghost use Rattle.script_vars.specs.Seen.{env_of};
ghost use Rattle.script_eval.specs.Machines.{Applies, Calls, IsDeep, leads_of};

use crate::act::Act;
use crate::frames::Layer;
use crate::machine::{Machine, Progress, put_next};
use crate::node::again;
use do_tree::{Class, Method, MethodKind};
use do_value::{Mem, NoMemory, Text, Value};
use script_mean::MOST_HELPERS;
use script_ops::{OpFault, throw};
use script_steps::{Await, Focus, Outcome};
use script_vars::Vars;
use std::alloc::Global;
use std::mem;

/// The variables that a method's body begins with.
pub(crate) fn method_vars(alloc: Global, method: &Method, args: Vec<Value>) -> Mem<Vars>
    ensures { IfOk result (λ vars. env_of vars ≡ method_scope (method_of method.now) (trees_in args.items) ∷ []) }
{
    let mut vars = Vars::new(alloc);
    match method.kind {
        MethodKind::Constructor => vars.constructor(&method.parameters)?,
        MethodKind::Sync | MethodKind::Async => vars.parameters(&method.parameters, args)?,
    }
    Ok(vars)
}

/// The method of this name, which is no constructor.
pub(crate) fn method_named<'a>(methods: &'a [Method], name: &str) -> Option<&'a Method>
    ensures { option_map (λ m. m.now) result ≡ find (λ m. is_named name.now (method_of m)) methods.now }
{
    methods.iter().find(|m| !matches!(m.kind, MethodKind::Constructor)
        && m.name.text.as_str() == name)
}

/// What is thrown where helper calls are too deep inside each other.
fn too_deep(alloc: Global) -> Mem<Value>
    ensures { IfOk result (λ error. tree_of error ≡ nested_too_deep) }
{
    match throw(alloc, "RangeError", "nesting") {
        OpFault::Throw(error) => Ok(error),
        OpFault::NoMemory => Err(NoMemory),
    }
}

impl Machine {
    /// A helper is called. Too many calls inside each other throw; so does a name that no method has.
    pub(crate) fn call_helper(
        &mut self,
        alloc: Global,
        class: &Class,
        awaited: Await,
        name: Text,
        args: Vec<Value>,
        focus: &mut Focus,
    ) -> Mem<Progress>
        requires { IsDeep self.old }
        ensures { IfOk result (λ p. Applies (class_of class.now) (Act.Helps awaited name args) self.old self.new (leads_of p focus.new)) }
    {
        if self.depth >= MOST_HELPERS as usize {
            let error = too_deep(alloc)?;
            put_next(focus, Focus::Ended(Outcome::Threw(error)));
            return Ok(Progress::GoesOn);
        }
        match method_named(&class.methods, name.as_str()) {
            None => {
                put_next(focus, Focus::Ended(Outcome::Threw(Value::Undefined)));
                Ok(Progress::GoesOn)
            }
            Some(method) => self.enter_method(alloc, method, awaited, args, focus),
        }
    }

    /// The body of a helper is run, with variables of its own.
    fn enter_method(
        &mut self,
        alloc: Global,
        method: &Method,
        awaited: Await,
        args: Vec<Value>,
        focus: &mut Focus,
    ) -> Mem<Progress>
        requires { self.old.depth < MOST_HELPERS }
        ensures { IfOk result (λ p. Calls method.now awaited args self.old self.new (leads_of p focus.new)) }
    {
        let vars = method_vars(alloc, method, args)?;
        let body = again(&method.body)?;
        let caller = mem::replace(&mut self.state.vars, vars);
        self.frames.push(Layer::Caller(awaited, caller))?;
        self.depth += 1;
        put_next(focus, Focus::Body(body, 0));
        Ok(Progress::GoesOn)
    }
}
