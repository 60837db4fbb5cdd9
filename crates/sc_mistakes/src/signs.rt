//! What Spark, Scala or other languages write, and how it is written here.
#![tactic(auto)]

use sc_pieces::is_among;

/// Spark's operations and actions that are none here, and how they are written.
const OPERATIONS: [(&str, &str); 14] = [
    (
        "textFile",
        "Spark's `textFile` is `text`: lines = text \"in.txt\" 2",
    ),
    (
        "saveAsTextFile",
        "Spark's `saveAsTextFile` is `save`: save rows \"out\"",
    ),
    ("persist", "Spark's `persist` is `cache`: kept = cache rows"),
    (
        "keyBy",
        "`keyBy` is a map to pairs: keyed = map rows (pair KEY x)",
    ),
    (
        "distinct",
        "`distinct` is a map to (pair x 1), then reduceByKey with a, and then a map to (fst x)",
    ),
    (
        "sortBy",
        "`sortBy` is a map to (pair KEY x), sortByKey, and a map to (snd x)",
    ),
    ("keys", "`keys` is a map: keys = map rows (fst x)"),
    ("values", "`values` is a map: values = map rows (snd x)"),
    (
        "take first top",
        "rows can't be taken from the front: `collect` prints all of them",
    ),
    (
        "countByKey",
        "`countByKey` is mapValues rows 1, and then reduceByKey with (+ a b)",
    ),
    (
        "print println foreach show",
        "rows are printed by `collect`",
    ),
    (
        "foldByKey aggregateByKey combineByKey",
        "values under a key are put together by `reduceByKey`, whose result has their type",
    ),
    (
        "leftOuterJoin rightOuterJoin fullOuterJoin subtractByKey",
        "it is a cogroup, whose lists of values are then looked at: an empty one has (len x) 0",
    ),
    ("sample zip cartesian", "there is no such operation here"),
];

/// Heads of other languages that are none here, and how they are written.
const HEADS: [(&str, &str); 12] = [
    (
        "split",
        "a text is cut by `cut` at a character: (cut x \",\"), or into `words`",
    ),
    (
        "length size count",
        "the length of a list is `len`: (len (words x))",
    ),
    (
        "toInt parse",
        "a text is read as a number by `int`: (int x)",
    ),
    (
        "toString str",
        "a value is written as a text by `text`: (text x)",
    ),
    ("max", "the greater of two numbers is (if (< a b) b a)"),
    ("min", "the less of two numbers is (if (< a b) a b)"),
    (
        "tuple cons",
        "two values are put together by `pair`: (pair x 1)",
    ),
    ("head", "the first item of a list is (nth x 0)"),
    ("_1", "the first of a pair is (fst x)"),
    ("_2", "the second of a pair is (snd x)"),
    ("eq", "whether two values are equal is (== a b)"),
    ("mod", "the rest of a division is (% a b)"),
];

/// Signs of other languages that are none here, and how they are written.
const SIGNS: [(&str, &str); 9] = [
    (
        ">",
        "there is no `>`: write `<` with the two sides exchanged",
    ),
    (
        ">=",
        "there is no `>=`: write `<=` with the two sides exchanged",
    ),
    ("!= <>", "there is no `!=`: write (not (== a b))"),
    ("&& &", "there is no `&&`: write `and`"),
    ("|| |", "there is no `||`: write `or`"),
    ("!", "there is no `!`: write `not`"),
    (
        "=> ->",
        "a function is its expression alone, with `x` for the row",
    ),
    (
        "_",
        "the row is called `x`; in reduce and reduceByKey the values are `a` and `b`",
    ),
    (":=", "a definition is written with `=`"),
];

/// How a Spark operation or action is written here, where its name is none.
pub(crate) fn operation_for(word: &str) -> Option<&'static str> {
    meaning_in(&OPERATIONS, word)
}

/// How a head of other languages is written here, where its name is none.
pub(crate) fn head_for(word: &str) -> Option<&'static str> {
    meaning_in(&HEADS, word)
}

/// How a sign of other languages is written here, where it is none.
pub(crate) fn sign_for(piece: &str) -> Option<&'static str> {
    meaning_in(&SIGNS, piece)
}

/// What stands in a table beside the words of which this is one.
pub(crate) fn meaning_in(
    table: &[(&'static str, &'static str)],
    word: &str,
) -> Option<&'static str> {
    for (words, meaning) in table {
        if is_among(word, words) {
            return Some(*meaning);
        }
    }
    None
}
