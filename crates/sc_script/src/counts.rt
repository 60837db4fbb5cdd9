//! Numbers of partitions among arguments.
#![tactic(auto)]

ghost use Rattle.std.specs.Prelude.{◌≡◌, map};
ghost use Rattle.sc_script.specs.Items.{count_in};
ghost use Rattle.sc_script.specs.Lines.{count_fits, counts_fit};
ghost use Rattle.sc_script.specs.Views.{args_of, arg_data_of};

use crate::fitting::kinds_behind;
use crate::tables::ArgKind;
use crate::trees::Arg;

/// The number of partitions that an argument is, where it is in its range.
pub fn count_of(limit: u32, arg: &Arg) -> Option<u32>
    ensures { result ≡ count_in limit (arg_data_of arg.now) }
{
    match arg {
        Arg::Int(n) => {
            if 1 <= *n && *n <= i64::from(limit) {
                Some(*n as u32)
            } else {
                None
            }
        }
        Arg::Text(_) | Arg::Word(_) | Arg::List(_, _) => None,
    }
}

/// Whether each number of partitions among arguments is in its range.
pub fn counts_fit(limit: u32, kinds: &[ArgKind], args: &[Arg]) -> bool
    ensures { result ≡ counts_fit limit kinds.now (args_of (map arg_data_of args.now)) }
{
    let mut rest = kinds;
    for arg in args {
        let Some(kind) = rest.first() else {
            return true;
        };
        if !count_fits(limit, *kind, arg) {
            return false;
        }
        rest = kinds_behind(rest, arg);
    }
    true
}

/// Whether an argument is no number of partitions, or one in its range.
fn count_fits(limit: u32, kind: ArgKind, arg: &Arg) -> bool
    ensures { result ≡ count_fits limit kind (arg_data_of arg.now) }
{
    match kind {
        ArgKind::Count => count_of(limit, arg).is_some(),
        _ => true,
    }
}
