//! The heads that take texts apart and put them together.
#![tactic(auto)]

ghost use Rattle.std.specs.Prelude.{◌≡◌, ◌++◌, Ok, map};
ghost use Rattle.sc_base.specs.Answers.{Answers};
ghost use Rattle.sc_value.specs.Datum.{text as text_datum};
ghost use Rattle.sc_value.specs.Printing.{printed as printed_text};
ghost use Rattle.sc_value.specs.Views.{datum_of};
ghost use Rattle.sc_value.specs.Words.{cut_at, words_of};
ghost use Rattle.sc_expr.specs.Heads.{list_value};

use crate::evaluation::EvalError;
use sc_value::{Text, Value, cut_in, print, words_in};
use std::alloc::Global;

/// The words of a text.
pub(crate) fn words(alloc: Global, text: &str) -> Result<Value, EvalError>
    ensures { Answers datum_of (λ r. r) result
        (Ok (list_value (map text_datum (words_of text.now)))) }
{
    list_of_texts(alloc, words_in(alloc, text)?)
}

/// The pieces of a text between the occurrences of a separator.
pub(crate) fn pieces(alloc: Global, text: &str, separator: &str) -> Result<Value, EvalError>
    ensures { Answers datum_of (λ r. r) result
        (Ok (list_value (map text_datum (cut_at separator.now text.now)))) }
{
    list_of_texts(alloc, cut_in(alloc, text, separator)?)
}

/// A list of texts.
fn list_of_texts(alloc: Global, texts: Vec<Text>) -> Result<Value, EvalError>
    ensures { Answers datum_of (λ r. r) result (Ok (list_value (map text_datum texts.items))) }
{
    let mut items = Vec::with_capacity(alloc, texts.len())?;
    for text in texts {
        items.push(Value::Text(text))?;
    }
    Ok(Value::List(items))
}

/// Two texts, one behind the other.
pub(crate) fn joined(alloc: Global, first: &str, second: &str) -> Result<Value, EvalError>
    ensures { Answers datum_of (λ r. r) result (Ok (text_datum (first.now ++ second.now))) }
{
    let mut all = String::with_capacity(alloc, first.len() + second.len())?;
    all.push_str(first)?;
    all.push_str(second)?;
    Ok(Value::Text(Text::of_string(all)))
}

/// The printed text of a value.
pub(crate) fn printed(alloc: Global, value: &Value) -> Result<Value, EvalError>
    ensures { Answers datum_of (λ r. r) result
        (Ok (text_datum (printed_text (datum_of value.now)))) }
{
    Ok(Value::Text(print(alloc, value)?))
}
