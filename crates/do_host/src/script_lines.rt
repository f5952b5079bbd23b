// The lines that tell of a script.
ghost use Rattle.std.specs.Prelude.{◌≡◌, IfOk, map};
ghost use Rattle.serde_json.specs.View.{view};
ghost use Rattle.do_tree.specs.Seen.{script_of, class_of};
ghost use Rattle.do_host.specs.ScriptLines as spec;

use do_tree::{Class, Script};
use line_server::json_text;
use serde_json::{Value as Json, json};
use std::alloc::{AllocError, Global};

// `["script-refused",place,word]` and an LF.
pub(crate) fn refused_line(alloc: Global, place: u32, word: &str) -> Result<Vec<u8>, AllocError>
    ensures { IfOk result (λ bytes. bytes.items ≡ spec.refused_line place word.now) }
{
    let json = refused_json(alloc, place, word)?;
    json_text(alloc, &json)
}

fn refused_json(alloc: Global, place: u32, word: &str) -> Result<Json, AllocError>
    ensures { IfOk result (λ json. view json ≡ spec.refused_json place word.now) }
{
    json!(in alloc; ["script-refused", place, word])
}

// `["script",[names]]` and an LF: the names of the classes, in the order of the text.
pub(crate) fn script_line(alloc: Global, script: &Script) -> Result<Vec<u8>, AllocError>
    ensures { IfOk result (λ bytes. bytes.items ≡ spec.script_line (script_of script.now)) }
{
    let json = script_json(alloc, &script.classes)?;
    json_text(alloc, &json)
}

fn script_json(alloc: Global, classes: &[Class]) -> Result<Json, AllocError>
    ensures { IfOk result (λ json. view json ≡ spec.script_json (map class_of classes.now)) }
{
    let names = class_names(alloc, classes)?;
    json!(in alloc; ["script", names])
}

fn class_names(alloc: Global, classes: &[Class]) -> Result<Json, AllocError>
    ensures { IfOk result (λ json. view json ≡ spec.class_names (map class_of classes.now)) }
{
    let mut names = Vec::new(alloc);
    for class in classes {
        names.push(Json::try_from_str(alloc, class.name.text.as_str())?)?;
    }
    Ok(Json::Array(names))
}
