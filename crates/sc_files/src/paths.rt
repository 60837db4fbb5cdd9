//! Paths, as bytes.
#![tactic(auto)]

ghost use Rattle.std.specs.Prelude.{◌≡◌};
ghost use Rattle.std.specs.Option.{option_map};
ghost use Rattle.sc_base.specs.Trees.{dir_part, is_in, lies_under};

/// What stands before the last slash of a path, if it has one.
pub fn dir_part(path: &[u8]) -> Option<&[u8]>
    ensures { option_map (λ dir. dir.now) result ≡ dir_part path.now }
{
    let mut end = path.len();
    while end > 0 {
        end -= 1;
        if path[end] == b'/' {
            return Some(&path[..end]);
        }
    }
    None
}

/// Whether a path is a directory's own or lies under it.
pub fn is_in(dir: &[u8], path: &[u8]) -> bool
    ensures { result ≡ is_in dir.now path.now }
{
    dir == path || lies_under(dir, path)
}

/// Whether a path lies under a directory: the directory's path, a slash, and any rest.
pub fn lies_under(dir: &[u8], path: &[u8]) -> bool
    ensures { result ≡ lies_under dir.now path.now }
{
    let mut rest = path;
    for byte in dir {
        let Some((first, after)) = rest.split_first() else {
            return false;
        };
        if *first != *byte {
            return false;
        }
        rest = after;
    }
    match rest.first() {
        Some(first) => *first == b'/',
        None => false,
    }
}
