//! The words that calls of forms are made of.
#![tactic(auto, using(std::proofs::lemmas::Grind::common_steps, crate::proofs::Append::least_append))]

ghost use Rattle.std.specs.Prelude.{if◌then◌else◌, ◌≡◌, ◌&&◌, None, Some, codes, option_map};
ghost use Rattle.std.specs.Str.{bytes_eq};
ghost use Rattle.do_check.specs.Sight.{form_of};
ghost use Rattle.do_tree.specs.Forms.{among, class_form, computes, handle_form, handle_writes, is_method, language_words, owner_form, storage_form, storage_writes};
ghost use Rattle.do_tree.specs.Forms.{value_methods, word_form};
ghost use Rattle.do_tree.specs.Seen.{named_of};

use crate::stage::Form;
use do_tree::Name;

/// The methods of the storage.
pub fn storage_form<'a>(word: &str) -> Option<Form<'a>>
    ensures { option_map form_of result ≡ storage_form word.now }
{
    if "get" == word || "getAlarm" == word || "sync" == word {
        Some(Form::Reads)
    } else if is_write(word) {
        Some(Form::Writes)
    } else if "list" == word {
        Some(Form::Lists)
    } else if "transaction" == word {
        Some(Form::Transacts)
    } else {
        None
    }
}

fn is_write(word: &str) -> bool
    ensures { result ≡ among storage_writes word.now }
{
    "put" == word
        || "delete" == word
        || "deleteAll" == word
        || "setAlarm" == word
        || "deleteAlarm" == word
}

/// The methods of a transaction's handle.
pub fn handle_form<'a>(word: &str) -> Option<Form<'a>>
    ensures { option_map form_of result ≡ handle_form word.now }
{
    if "get" == word {
        Some(Form::HandleReads)
    } else if is_handle_write(word) {
        Some(Form::HandleWrites)
    } else if "list" == word {
        Some(Form::HandleLists)
    } else if "rollback" == word {
        Some(Form::RollsBack)
    } else {
        None
    }
}

fn is_handle_write(word: &str) -> bool
    ensures { result ≡ among handle_writes word.now }
{
    "put" == word || "delete" == word
}

/// The methods of a class in the environment.
pub fn class_form<'a>(class: &'a Name, word: &str) -> Option<Form<'a>>
    ensures { option_map form_of result ≡ class_form (named_of class.now).text word.now }
{
    if "get" == word {
        Some(Form::Opens(class))
    } else if "idFromName" == word {
        Some(Form::Identifies(class))
    } else {
        None
    }
}

/// Words of the language that are called.
pub fn word_form<'a>(word: &str) -> Option<Form<'a>>
    ensures { option_map form_of result ≡ word_form word.now }
{
    if "fetch" == word {
        Some(Form::Fetches)
    } else if "String" == word || "Number" == word {
        Some(Form::Computes)
    } else {
        None
    }
}

/// Words of the language of which a part is called.
pub fn owner_form<'a>(owner: &str, word: &str) -> Option<Form<'a>>
    ensures { option_map form_of result ≡ owner_form owner.now word.now }
{
    let known = is_both("Object", owner, "keys", word)
        || is_both("Array", owner, "isArray", word)
        || is_both("Date", owner, "now", word);
    computes_if(known)
}

/// Whether the first two texts are the same, and the other two.
fn is_both(owner: &str, here: &str, word: &str, there: &str) -> bool
    ensures { result ≡ (bytes_eq owner.now here.now && bytes_eq word.now there.now) }
{
    owner == here && word == there
}

fn computes_if<'a>(known: bool) -> Option<Form<'a>>
    ensures { option_map form_of result ≡ (if known then Some computes else None) }
{
    if known { Some(Form::Computes) } else { None }
}

pub fn is_language_word(word: &str) -> bool
    ensures { result ≡ among language_words word.now }
{
    "fetch" == word
        || "String" == word
        || "Number" == word
        || "Object" == word
        || "Array" == word
        || "Date" == word
}

/// The methods of lists and texts. `push` is one of a place alone.
pub fn is_method(is_place: bool, word: &str) -> bool
    ensures { result ≡ is_method is_place word.now }
{
    is_value_method(word) || is_push(is_place, word)
}

fn is_value_method(word: &str) -> bool
    ensures { result ≡ among value_methods word.now }
{
    "includes" == word
        || "indexOf" == word
        || "slice" == word
        || "startsWith" == word
        || "endsWith" == word
        || "split" == word
}

fn is_push(is_place: bool, word: &str) -> bool
    ensures { result ≡ (is_place && bytes_eq (codes "push") word.now) }
{
    if is_place { "push" == word } else { false }
}
