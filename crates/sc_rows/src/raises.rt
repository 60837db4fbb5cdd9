//! Which raise ends a partition, and behind which rows: a run tells only that there is one.
//!
//! The statuses of the same scripts are in `cases/`.
#![tactic(auto)]

use crate::streams::last_stream;
use crate::works::halves;
use std::process::Abort;
use std::str;
use std::thread::Threads;

/// Literals, an expression over each of them as `x`, and the rows that a map with it gives up to a
/// raise, of this kind.
const ROWS: &str = r#"
7 7 | (/ x 0) | ! DivideByZero
0 0 | (/ 7 x) | ! DivideByZero
0 0 | (/ 7 0) | ! DivideByZero
"7 0" "7 0" | (/ (int (nth (words x) 0)) (int (nth (words x) 1))) | ! DivideByZero
0 0 | (/ x 0) | ! DivideByZero
0 0 | (/ 0 x) | ! DivideByZero
0 0 | (/ 0 0) | ! DivideByZero
"0 0" "0 0" | (/ (int (nth (words x) 0)) (int (nth (words x) 1))) | ! DivideByZero
-9223372036854775808 -9223372036854775808 | (/ x 0) | ! DivideByZero
0 0 | (/ -9223372036854775808 x) | ! DivideByZero
0 0 | (/ -9223372036854775808 0) | ! DivideByZero
"-9223372036854775808 0" | (/ (int (nth (words x) 0)) (int (nth (words x) 1))) | ! DivideByZero

7 7 | (% x 0) | ! DivideByZero
0 0 | (% 7 x) | ! DivideByZero
0 0 | (% 7 0) | ! DivideByZero
"7 0" "7 0" | (% (int (nth (words x) 0)) (int (nth (words x) 1))) | ! DivideByZero
0 0 | (% x 0) | ! DivideByZero
0 0 | (% 0 x) | ! DivideByZero
0 0 | (% 0 0) | ! DivideByZero
"0 0" "0 0" | (% (int (nth (words x) 0)) (int (nth (words x) 1))) | ! DivideByZero
-9223372036854775808 -9223372036854775808 | (% x 0) | ! DivideByZero
0 0 | (% -9223372036854775808 x) | ! DivideByZero
0 0 | (% -9223372036854775808 0) | ! DivideByZero
"-9223372036854775808 0" | (% (int (nth (words x) 0)) (int (nth (words x) 1))) | ! DivideByZero

4 0 | (sum (list x (/ 4 x))) | 5 ! DivideByZero

1 2 0 3 | (and (< x 5) (< 1 (/ 2 x))) | true | false ! DivideByZero
1 2 0 3 | (or (== x 1) (< 1 (/ 2 x))) | true | false ! DivideByZero
2 1 0 | (and (< 0 (/ 2 x)) (== (nth (list 7) (- x 2)) 7)) | true ! OutOfRange
2 0 1 | (and (< 0 (/ 2 x)) (== (nth (list 7) (- x 2)) 7)) | true ! DivideByZero
"a" | (and (== (int x) 1) (== (/ 1 0) 1)) | ! NotANumber
"a" | (or (== (int x) 1) (== (/ 1 0) 1)) | ! NotANumber

0 1 2 | (if (< x 2) x (/ 1 0)) | 0 | 1 ! DivideByZero
2 1 0 | (if (< x 1) (/ 1 x) x) | 2 | 1 ! DivideByZero
1 2 0 | (if (== (/ 2 x) 1) (nth (list 7) x) x) | 1 ! OutOfRange
1 0 2 | (if (== (/ 2 x) 1) (nth (list 7) x) x) | 1 ! DivideByZero
"1" "a" "" | (if (== x "") (/ 1 0) (int x)) | 1 ! NotANumber
"1" "" "a" | (if (== x "") (/ 1 0) (int x)) | 1 ! DivideByZero

1 0 | (< (/ 1 x) (nth (list 1) x)) | ! OutOfRange
0 1 | (< (/ 1 x) (nth (list 1) x)) | ! DivideByZero

1 9 0 | (+ (/ 9 x) (nth (list 1 2) x)) | 11 ! OutOfRange
1 0 9 | (+ (/ 9 x) (nth (list 1 2) x)) | 11 ! DivideByZero
1 9 0 | (- (/ 9 x) (nth (list 1 2) x)) | 7 ! OutOfRange
1 0 9 | (- (/ 9 x) (nth (list 1 2) x)) | 7 ! DivideByZero
1 9 0 | (* (/ 9 x) (nth (list 1 2) x)) | 18 ! OutOfRange
1 0 9 | (* (/ 9 x) (nth (list 1 2) x)) | 18 ! DivideByZero
1 9 0 | (/ (/ 9 x) (nth (list 1 2) x)) | 4 ! OutOfRange
1 0 9 | (/ (/ 9 x) (nth (list 1 2) x)) | 4 ! DivideByZero
1 9 0 | (% (/ 9 x) (nth (list 1 2) x)) | 1 ! OutOfRange
1 0 9 | (% (/ 9 x) (nth (list 1 2) x)) | 1 ! DivideByZero
1 9 0 | (== (/ 9 x) (nth (list 1 2) x)) | false ! OutOfRange
1 0 9 | (== (/ 9 x) (nth (list 1 2) x)) | false ! DivideByZero
1 9 0 | (< (/ 9 x) (nth (list 1 2) x)) | false ! OutOfRange
1 0 9 | (< (/ 9 x) (nth (list 1 2) x)) | false ! DivideByZero
1 9 0 | (<= (/ 9 x) (nth (list 1 2) x)) | false ! OutOfRange
1 0 9 | (<= (/ 9 x) (nth (list 1 2) x)) | false ! DivideByZero
1 9 0 | (pair (/ 9 x) (nth (list 1 2) x)) | (9,2) ! OutOfRange
1 0 9 | (pair (/ 9 x) (nth (list 1 2) x)) | (9,2) ! DivideByZero
1 9 0 | (list (/ 9 x) (nth (list 1 2) x) x) | CompactBuffer(9, 2, 1) ! OutOfRange
1 0 9 | (list (/ 9 x) (nth (list 1 2) x) x) | CompactBuffer(9, 2, 1) ! DivideByZero
1 9 0 | (nth (list (/ 9 x) 5) (nth (list 1 0) x)) | 9 ! OutOfRange
1 0 9 | (nth (list (/ 9 x) 5) (nth (list 1 0) x)) | 9 ! DivideByZero
1 9 0 | (concat (text (/ 9 x)) (text (nth (list 1 2) x))) | 92 ! OutOfRange
1 0 9 | (concat (text (/ 9 x)) (text (nth (list 1 2) x))) | 92 ! DivideByZero
1 0 9 | (/ 6 (nth (list 0 2) x)) | 3 ! DivideByZero
1 9 0 | (/ 6 (nth (list 0 2) x)) | 3 ! OutOfRange
1 0 9 | (% 7 (nth (list 0 2) x)) | 1 ! DivideByZero
1 9 0 | (% 7 (nth (list 0 2) x)) | 1 ! OutOfRange
1 | (+ (/ x 0) (int "a")) | ! DivideByZero
1 | (+ (int "a") (/ x 0)) | ! NotANumber
1 | (/ (int "a") 0) | ! NotANumber
1 | (if (== (/ x 0) 1) (int "a") (int "b")) | ! DivideByZero
1 2 | (+ (if (== x 2) (/ 1 0) 1) (int "a")) | ! NotANumber

4 0 | (fst (pair x (/ 4 x))) | 4 ! DivideByZero
1 0 | (pair (/ 1 x) (nth (list 1) x)) | ! OutOfRange
0 1 | (pair (/ 1 x) (nth (list 1) x)) | ! DivideByZero

2 1 | (list (/ 2 x) (nth (list 7) (- x 2))) | CompactBuffer(1, 7) ! OutOfRange
2 0 | (list (/ 2 x) (nth (list 7) (- x 2))) | CompactBuffer(1, 7) ! DivideByZero
"x" | (list (int x) (/ 1 0)) | ! NotANumber
"x" | (list (/ 1 0) (int x)) | ! DivideByZero

1 0 | (len (list (/ 1 x))) | 1 ! DivideByZero

2 3 | (nth (list 5 6 7) x) | 7 ! OutOfRange
0 -1 | (nth (list 5 6 7) x) | 5 ! OutOfRange
0 9223372036854775807 | (nth (list 5) x) | 5 ! OutOfRange
0 -9223372036854775808 | (nth (list 5) x) | 5 ! OutOfRange
0 4294967296 | (nth (list 5 6) x) | 5 ! OutOfRange
"a b" "c" | (nth (words x) 1) | b ! OutOfRange
"a" "" | (nth (words x) 0) | a ! OutOfRange
"a" "b" | (nth (words x) -1) | ! OutOfRange
"a,b" "c" | (nth (cut x ",") 1) | b ! OutOfRange
"a🦀b" "c" | (nth (cut x "🦀") 1) | b ! OutOfRange
"1 x" "x 1" | (nth (list 7) (int (nth (words x) 0))) | ! OutOfRange
"x 1" "1 x" | (nth (list 7) (int (nth (words x) 0))) | ! NotANumber
"0 1" "x" | (int (nth (words x) 0)) | 0 ! NotANumber
"5" "" "x" | (int (nth (words x) 0)) | 5 ! OutOfRange
"5" "x" "" | (int (nth (words x) 0)) | 5 ! NotANumber
"5 6" "7 99999999999999999999" | (int (nth (words x) 1)) | 6 ! OutOfRange
"5" "x y" | (len (list (nth (words x) 0) (nth (words x) 1))) | ! OutOfRange

"0" "9223372036854775808" | (int x) | 0 ! OutOfRange
"0" "-9223372036854775809" | (int x) | 0 ! OutOfRange
"0" "18446744073709551616" | (int x) | 0 ! OutOfRange
"0" "100000000000000000000000000000000000000000" | (int x) | 0 ! OutOfRange
"0" "-100000000000000000000000000000000000000000" | (int x) | 0 ! OutOfRange
"0" "99999999999999999999x" | (int x) | 0 ! NotANumber
"0" "" | (int x) | 0 ! NotANumber
"0" "-" | (int x) | 0 ! NotANumber
"0" "+1" | (int x) | 0 ! NotANumber
"0" "--1" | (int x) | 0 ! NotANumber
"0" "1-" | (int x) | 0 ! NotANumber
"0" " 1" | (int x) | 0 ! NotANumber
"0" "1 " | (int x) | 0 ! NotANumber
"0" "1\t" | (int x) | 0 ! NotANumber
"0" "1.0" | (int x) | 0 ! NotANumber
"0" "1e3" | (int x) | 0 ! NotANumber
"0" "0x1" | (int x) | 0 ! NotANumber
"0" "1_000" | (int x) | 0 ! NotANumber
"0" "-é" | (int x) | 0 ! NotANumber
"0" "１" | (int x) | 0 ! NotANumber
"0" "٣" | (int x) | 0 ! NotANumber
0 1 | (int "a") | ! NotANumber

4 0 | (text (/ 4 x)) | 1 ! DivideByZero

"1" "x" | (concat (text (int x)) (nth (words x) 1)) | ! OutOfRange
"x" "1" | (concat (text (int x)) (nth (words x) 1)) | ! NotANumber
"1" "x" | (concat (nth (words x) 1) (text (int x))) | ! OutOfRange
"x" "1" | (concat (nth (words x) 1) (text (int x))) | ! OutOfRange
"#;

/// Scripts of which each node reads the one before, a line `----`, the rows of the last node, and a
/// line with the raise that ends them.
const CHAINS: &str = r#"====
l = parallelize 1 1 0
m = map l (/ 10 x)
n = map m (nth (list 1) x)
----
! OutOfRange
====
l = parallelize 1 5 0
m = map l (/ 10 x)
n = map m (nth (list 1 2 3) x)
----
3
! DivideByZero
====
l = parallelize 1 5 1 0
m = map l (/ 10 x)
n = map m (nth (list 1 2 3) x)
----
3
! OutOfRange
====
l = parallelize 1 5 0
m = map l (/ 10 x)
n = filter m false
----
! DivideByZero
====
l = parallelize 1 5 1 0
m = filter l (< 4 (/ 10 x))
n = filter m (== 1 x)
----
1
! DivideByZero
====
l = parallelize 1 "1 2" "" "3 x 4" "y"
m = flatMap l (words x)
n = map m (int x)
o = map n (* x x)
----
1
4
9
! NotANumber
====
l = parallelize 1 "1 2" "3"
m = flatMap l (list (nth (words x) 0) (nth (words x) 1))
----
1
2
! OutOfRange
====
l = parallelize 1 2 1 0
m = map l (pair x x)
n = mapValues m (/ 2 x)
o = flatMapValues n (list x (nth (list 0 7) x))
p = cache o
----
(2,1)
(2,7)
! OutOfRange
====
l = parallelize 1 2 0 1
m = map l (pair x x)
n = mapValues m (/ 2 x)
o = flatMapValues n (list x (nth (list 0 7) x))
p = coalesce o 1
----
(2,1)
(2,7)
! DivideByZero
====
"#;

/// Sees that a map of literals gives the rows of a line, and then raises.
fn assert_row<R: Abort + AllocGlobal + Threads + Sync>(rt: &R, line: &str) {
    let (literals, rest) = halves(line, " | ");
    let (expr, want) = halves(rest, " | ");
    let script = format!(in rt.alloc(); "l = parallelize 1 {literals}\nm = map l {expr}\n");
    let script = script.expect(rt, "memory");
    let want = want.replace(rt.alloc(), " | ", "\n").expect(rt, "memory");
    let want = want.replace(rt.alloc(), " ! ", "\n! ").expect(rt, "memory");
    assert_stream(rt, script.as_str(), want.as_str());
}

/// Sees that the last node of a script, of which each reads the one before, gives these rows and
/// then this raise.
fn assert_stream<R: Abort + AllocGlobal + Threads + Sync>(rt: &R, script: &str, want: &str) {
    let (rows, raise) = halves(want, "! ");
    let (seen, kind) = last_stream(rt, script, "");
    let mut out = Vec::new(rt.alloc());
    seen.print_lines(&mut out).expect(rt, "memory");
    let printed = str::from_utf8(&out).unwrap_or("(no text)");
    assert_eq!(rt; printed, rows, "{script}");
    assert_eq!(rt; kind, raise.trim_end(), "{script}");
}

#[test]
fn a_raise_comes_behind_the_rows_before_it(rt: HostRuntime) {
    for line in ROWS.lines() {
        if !line.is_empty() {
            assert_row(&rt, line);
        }
    }
    for case in CHAINS.split("====\n") {
        if !case.is_empty() {
            let (script, want) = halves(case, "----\n");
            assert_stream(&rt, script, want);
        }
    }
}

/// The nodes over lines of 1, the line for which they raise, and the raise.
const STOPPING: [(&str, &str, &str); 13] = [
    ("m = map l (int x)", "x", "NotANumber"),
    ("m = map l (int x)", "9223372036854775808", "OutOfRange"),
    ("m = map l (/ 6 (int x))", "0", "DivideByZero"),
    ("m = map l (% 6 (int x))", "0", "DivideByZero"),
    ("m = map l (nth (list 7) (- (int x) 1))", "2", "OutOfRange"),
    ("m = map l (nth (words x) 0)", "", "OutOfRange"),
    ("m = map l (int (nth (words x) 0))", " x", "NotANumber"),
    (
        "m = map l (if (== x \"1\") (int x) (/ 1 0))",
        "2",
        "DivideByZero",
    ),
    ("m = map l (pair x (list (int x)))", "x", "NotANumber"),
    ("m = filter l (== (int x) 1)", "x", "NotANumber"),
    ("m = flatMap l (list (int x))", "x", "NotANumber"),
    (
        "k = map l (pair x x)\nm = mapValues k (int x)",
        "x",
        "NotANumber",
    ),
    (
        "k = map l (pair x x)\nm = flatMapValues k (list (int x))",
        "x",
        "NotANumber",
    ),
];

/// How many lines stand before the odd one, and how many behind it: their numbers lie about those
/// of one and of two batches.
const PLACES: [(usize, usize); 11] = [
    (0, 4094),
    (4094, 0),
    (0, 4095),
    (2048, 2047),
    (4095, 0),
    (4094, 2),
    (4095, 1),
    (4096, 0),
    (4097, 4095),
    (8191, 1),
    (8192, 0),
];

/// Sees that over lines of 1, so many before an odd one and so many behind it, these nodes stop
/// before the odd one, by this raise.
fn assert_stops<R: Abort + AllocGlobal + Threads + Sync>(
    rt: &R,
    nodes: &str,
    odd: &str,
    kind: &str,
    (before, behind): (usize, usize),
) {
    let alloc = rt.alloc();
    let first = "1\n".repeat(alloc, before).expect(rt, "memory");
    let last = "1\n".repeat(alloc, behind).expect(rt, "memory");
    let lines = format!(in alloc; "{first}{odd}\n{last}").expect(rt, "memory");
    let script = format!(in alloc; "l = text \"in.txt\" 1\n{nodes}\n").expect(rt, "memory");
    let (rows, seen) = last_stream(rt, script.as_str(), lines.as_str());
    assert_eq!(rt; rows.len(), before, "{nodes}");
    assert_eq!(rt; seen, kind, "{nodes}");
}

#[test]
fn rows_end_before_the_first_that_raises_whatever_its_place(rt: HostRuntime) {
    for (nodes, odd, kind) in &STOPPING {
        for place in &PLACES {
            assert_stops(&rt, *nodes, *odd, *kind, *place);
        }
    }
}
