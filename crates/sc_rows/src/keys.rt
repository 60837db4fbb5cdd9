//! Keys: their hashes as a Java virtual machine gives them, and the ranges that they fall into.
#![tactic(auto)]

use crate::streams::last_stream;
use crate::works::halves;
use sc_hash::{bucket, hash_of};
use sc_keys::Keys;
use sc_value::{Key, Text};

/// In each line a key's kind, its `hashCode` in Java, the remainder of that by 7 as `Math.floorMod`
/// has it, and the key: a text, or a number as a `Long`.
const HASHES: &str = "text 0 0 \n\
text 97 6 a\n\
text 98 0 b\n\
text 3105 4 ab\n\
text 3135 6 ba\n\
text 2112 5 Aa\n\
text 2112 5 BB\n\
text 1794106052 4 hello world\n\
text -609428141 0 The quick brown fox jumps over the lazy dog\n\
text -2147483648 5 polygenelubricants\n\
text 127 1 \u{7f}\n\
text 128 2 \u{80}\n\
text 233 2 \u{e9}\n\
text 3900 1 e\u{301}\n\
text 2047 3 \u{7ff}\n\
text 2048 4 \u{800}\n\
text 55295 2 \u{d7ff}\n\
text 57344 0 \u{e000}\n\
text 65535 1 \u{ffff}\n\
text 1770496 0 \u{10000}\n\
text 1803232 4 \u{10ffff}\n\
text 1772899 2 \u{1f600}\n\
text 57849694 0 a\u{1f600}b\n\
text 1703217152 0 \u{10000}\u{10000}\n\
text 646394 0 \u{4e2d}\u{6587}\n\
text 824164310 4 na\u{ef}ve caf\u{e9}\n\
text 3652384 1 a\u{300}\u{301}\u{302}\n\
text 0 0 \u{0}\n\
text -685785664 3 zzzzzz\n\
text 215481018 4 zzzzzzz\n\
text -1773151198 0 9223372036854775807\n\
text 1444 2 -1\n\
text 548169375 5 0123456789abcdefghijklmnopqrstuvwxyzABCDEFGHIJKLMNOPQRSTUVWXYZ\n\
text 42454113 2 \u{ac00}\u{1100}\u{1161}\n\
number 0 0 0\n\
number 1 1 1\n\
number 0 0 -1\n\
number 2147483647 1 2147483647\n\
number -2147483648 5 2147483648\n\
number 2147483647 1 -2147483648\n\
number -2147483648 5 -2147483649\n\
number -1 6 4294967295\n\
number 1 1 4294967296\n\
number -1 6 -4294967296\n\
number -2147483648 5 9223372036854775807\n\
number -2147483648 5 -9223372036854775808\n\
number 1825280481 3 1234567890123456789\n\
number 1825280480 2 -1234567890123456789\n";

#[test]
fn keys_have_the_hashes_of_java(rt: HostRuntime) {
    for line in HASHES.lines() {
        let (kind, rest) = halves(line, " ");
        let (hash, rest) = halves(rest, " ");
        let (remainder, word) = halves(rest, " ");
        let key = if kind == "text" {
            Key::Text(Text::new(rt.alloc(), word).expect(&rt, "memory"))
        } else {
            Key::Int(word.parse::<i64>().expect(&rt, "a number"))
        };
        let seen = (i64::from(hash_of(&key)), bucket(&key, 7));
        let hash = hash.parse::<i64>().expect(&rt, "a hash");
        let remainder = remainder.parse::<u32>().expect(&rt, "a remainder");
        assert_eq!(rt; seen, (hash, remainder), "{line}");
    }
}

/// In each line literals, how many ranges are asked for, and the range of each of them. A range
/// ends behind a key, and ranges have about as many rows as each other.
const RANGES: &str = r#"
9 2 1 3 2 | 3 | [2, 0, 0, 1, 0]
7 7 7 | 3 | [0, 0, 0]
5 | 1 | [0]
5 | 2 | [0]
1 2 3 4 | 4 | [0, 1, 2, 3]
4 3 2 1 | 2 | [1, 1, 0, 0]
2 1 | 8 | [1, 0]
-9223372036854775808 9223372036854775807 0 -1 | 2 | [0, 1, 1, 0]
3 1 3 1 3 | 2 | [0, 0, 0, 0, 0]
"c" "b" "a" "b" | 2 | [1, 0, 0, 0]
"𐀀" "￿" "é" "z" | 4 | [3, 2, 1, 0]
"10" "9" "1" | 3 | [1, 2, 0]
"#;

#[test]
fn keys_fall_into_even_ranges(rt: HostRuntime) {
    for line in RANGES.lines() {
        if !line.is_empty() {
            let (literals, rest) = halves(line, " | ");
            let (n, want) = halves(rest, " | ");
            let n = n.parse::<u32>().expect(&rt, "a number");
            let script = format!(in rt.alloc(); "l = parallelize 1 {literals}\n");
            let script = script.expect(&rt, "memory");
            let (rows, _) = last_stream(&rt, script.as_str(), "");
            let keys = Keys::of(rt.alloc(), &rows).expect(&rt, "memory");
            let bounds = keys.bounds(rt.alloc(), n).expect(&rt, "memory");
            let ranges = keys.ranges(rt.alloc(), &bounds).expect(&rt, "memory");
            let seen = format!(in rt.alloc(); "{ranges:?}").expect(&rt, "memory");
            assert_eq!(rt; seen.as_str(), want, "{line}");
        }
    }
}
