//! One checker of arguments, for lines and for lists in parentheses.
#![tactic(auto)]

ghost use Rattle.std.specs.Prelude.{◌≡◌, ◌<◌, length, map};
ghost use Rattle.sc_script.specs.Fitting.{all_behind, all_heads_known, fits_kinds, is_character, is_directory_name, is_input_name, is_of_kind, may_end, takes_int, takes_list, takes_text, takes_word};
ghost use Rattle.sc_script.specs.Views.{args_of, arg_data_of};

use crate::tables::{ArgKind, head_named, head_takes};
use crate::trees::Arg;

/// Whether each head in the arguments is in its table.
pub fn knows_heads(args: &[Arg]) -> bool
    ensures { result ≡ all_heads_known (args_of (map arg_data_of args.now)) }
{
    for arg in args {
        if let Arg::List(head, inner) = arg {
            if head_named(head).is_none() || !knows_heads(inner) {
                return false;
            }
        }
    }
    true
}

/// Whether the arguments are of these kinds.
#[cycle(fitting)]
pub fn fits(kinds: &[ArgKind], args: &[Arg]) -> bool
    ensures { result ≡ fits_kinds kinds.now (args_of (map arg_data_of args.now)) }
{
    let mut rest = kinds;
    for arg in args {
        let Some(kind) = rest.first() else {
            return false;
        };
        if !is_of_kind(*kind, arg) {
            return false;
        }
        rest = kinds_behind(rest, arg);
    }
    may_end(rest)
}

/// Whether the argument is of this kind.
#[cycle(fitting)]
fn is_of_kind(kind: ArgKind, arg: &Arg) -> bool
    ensures { result ≡ is_of_kind kind (arg_data_of arg.now) }
{
    match arg {
        Arg::Int(_) => takes_int(kind),
        Arg::Text(text) => takes_text(kind, text.as_str()),
        Arg::Word(_) => takes_word(kind),
        Arg::List(head, args) => {
            takes_list(kind)
                && match head_named(head) {
                    Some(head) => fits(head_takes(head), args),
                    None => false,
                }
        }
    }
}

/// Whether a number may stand here.
fn takes_int(kind: ArgKind) -> bool
    ensures { result ≡ takes_int kind }
{
    matches!(
        kind,
        ArgKind::Count | ArgKind::Literals | ArgKind::Ints | ArgKind::Expr | ArgKind::Exprs
    )
}

/// Whether this text may stand here.
fn takes_text(kind: ArgKind, text: &str) -> bool
    ensures { result ≡ takes_text kind text.now }
{
    match kind {
        ArgKind::Input => is_input_name(text),
        ArgKind::Directory => is_directory_name(text),
        ArgKind::Character => is_character(text),
        ArgKind::Literals | ArgKind::Texts | ArgKind::Expr | ArgKind::Exprs => true,
        ArgKind::Count | ArgKind::Ints | ArgKind::Node => false,
    }
}

/// Whether a word may stand here.
fn takes_word(kind: ArgKind) -> bool
    ensures { result ≡ takes_word kind }
{
    matches!(kind, ArgKind::Node | ArgKind::Expr | ArgKind::Exprs)
}

/// Whether a list in parentheses may stand here.
fn takes_list(kind: ArgKind) -> bool
    ensures { result ≡ takes_list kind }
{
    matches!(kind, ArgKind::Expr | ArgKind::Exprs)
}

/// The kinds behind an argument of the first of these kinds: some kinds stay to the end.
pub fn kinds_behind<'a>(kinds: &'a [ArgKind], arg: &Arg) -> &'a [ArgKind]
    requires { 0 < length kinds.now }
    ensures { result.now ≡ all_behind kinds.now (arg_data_of arg.now) }
{
    match kinds[0] {
        ArgKind::Ints | ArgKind::Texts | ArgKind::Exprs => kinds,
        ArgKind::Literals => match arg {
            Arg::Int(_) => &[ArgKind::Ints],
            _ => &[ArgKind::Texts],
        },
        _ => &kinds[1..],
    }
}

/// Whether arguments of these kinds may end here.
fn may_end(kinds: &[ArgKind]) -> bool
    ensures { result ≡ may_end kinds.now }
{
    match kinds.first() {
        None => true,
        Some(kind) => matches!(kind, ArgKind::Ints | ArgKind::Texts | ArgKind::Exprs),
    }
}

/// Whether a text may name an input: it isn't empty, and has no character of code 0.
fn is_input_name(text: &str) -> bool
    ensures { result ≡ is_input_name text.now }
{
    !text.is_empty() && !text.as_bytes().contains(&0)
}

/// Whether a text may name a directory: likewise, and it doesn't end in a slash.
fn is_directory_name(text: &str) -> bool
    ensures { result ≡ is_directory_name text.now }
{
    is_input_name(text) && !text.as_bytes().ends_with(b"/")
}

/// Whether a text is one character.
fn is_character(text: &str) -> bool
    ensures { result ≡ is_character text.now }
{
    text.chars().count() == 1
}
