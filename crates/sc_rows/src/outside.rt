//! Runs as the outside sees them: the names that are asked for, how many files are read and how
//! many pieces written, and reads and writes that fail.
//!
//! The texts and the statuses of the same runs are in `cases/`, but for calls that fail.
#![tactic(auto)]

use crate::given::{Outside, STILL, Seen, seen_of};
use crate::works::{add, strings_of};
use sc_exec::OpenGate;
use sc_input::MemSource;
use std::process::Abort;
use std::sync::Wait;
use std::thread::Threads;
use std::time;

/// The words that run a script, and those that run it under a plan.
const RUN: [&str; 2] = ["run", "job.spark"];

const PLANNED: [&str; 4] = ["run", "job.spark", "--plan", "plan.txt"];

/// The text of two lines.
const IN: (&str, &[u8]) = ("in.txt", b"b a\nb\n");

/// Two actions over an input, of which each has a text.
const TWO_COLLECTS: &[u8] = br#"
l = text "in.txt" 2
m = map l (concat x "!")
collect m
collect l
"#;

/// Three inputs, of which the first alone is printed.
const THREE_INPUTS: &[u8] = br#"
a = text "a.txt" 1
b = text "b.txt" 1
c = text "c.txt" 1
collect a
"#;

/// An action whose text is empty, and one whose text isn't.
const EMPTY_FIRST: &[u8] = br#"
e = text "empty.txt" 2
l = text "in.txt" 2
collect e
collect l
"#;

/// A script that prints its only input.
const ONE_INPUT: &[u8] = br#"
l = text "in.txt" 2
collect l
"#;

/// Three nodes over two inputs.
const THREE_NODES: &[u8] = br#"
b = text "b.txt" 2
a = text "a.txt" 1
c = text "b.txt" 1
u = union c a
collect a
collect b
collect c
count u
"#;

/// A word count.
const WORD_COUNT: &[u8] = br#"
l = text "in.txt" 2
w = flatMap l (words x)
p = map w (pair x 1)
c = reduceByKey p 2 (+ a b)
collect c
"#;

/// The words, the files, the read that fails, the write that fails and after how many bytes, and
/// what is seen. Calls are counted from 1, so none has the number 0.
const ROWS: [(&[&str], &[(&str, &[u8])], u64, (u64, usize), &str); 63] = [
    // Words that are no command: nothing is read.
    (
        &[],
        &[("job.spark", b"")],
        0,
        (0, 0),
        "status 2, asked [], 0 read, 0 written\nusage\n",
    ),
    (
        &["run"],
        &[("job.spark", b"")],
        0,
        (0, 0),
        "status 2, asked [], 0 read, 0 written\nusage\n",
    ),
    (
        &["run", "-job.spark"],
        &[("job.spark", b"")],
        0,
        (0, 0),
        "status 2, asked [], 0 read, 0 written\nusage\n",
    ),
    (
        &["run", "--help"],
        &[("job.spark", b"")],
        0,
        (0, 0),
        "status 2, asked [], 0 read, 0 written\nusage\n",
    ),
    (
        &["walk", "job.spark"],
        &[("job.spark", b"")],
        0,
        (0, 0),
        "status 2, asked [], 0 read, 0 written\nusage\n",
    ),
    (
        &["Run", "job.spark"],
        &[("job.spark", b"")],
        0,
        (0, 0),
        "status 2, asked [], 0 read, 0 written\nusage\n",
    ),
    (
        &["run", "job.spark", "in.txt"],
        &[("job.spark", b"")],
        0,
        (0, 0),
        "status 2, asked [], 0 read, 0 written\nusage\n",
    ),
    (
        &["job.spark", "run"],
        &[("job.spark", b"")],
        0,
        (0, 0),
        "status 2, asked [], 0 read, 0 written\nusage\n",
    ),
    // No file of this name, and no name.
    (
        &["run", "nofile"],
        &[],
        0,
        (0, 0),
        "status 5, asked [nofile], 0 read, 0 written\ninput: nofile: missing\n",
    ),
    (
        &["run", ""],
        &[],
        0,
        (0, 0),
        "status 5, asked [], 0 read, 0 written\ninput: : missing\n",
    ),
    // An input that is missing, a script that fails to be read, and an input that does.
    (
        &RUN,
        &[("job.spark", TWO_COLLECTS), ("other.txt", b"b a\nb\n")],
        9,
        (0, 0),
        "status 5, asked [job.spark in.txt], 1 read, 0 written\ninput: in.txt: missing\n",
    ),
    (
        &RUN,
        &[("job.spark", TWO_COLLECTS), IN],
        1,
        (0, 0),
        "status 5, asked [job.spark], 0 read, 0 written\ninput: job.spark: failed\n",
    ),
    (
        &RUN,
        &[("job.spark", TWO_COLLECTS), IN],
        2,
        (0, 0),
        "status 5, asked [job.spark in.txt], 1 read, 0 written\ninput: in.txt: failed\n",
    ),
    // Inputs that are no text.
    (
        &RUN,
        &[("job.spark", TWO_COLLECTS), ("in.txt", b"\xFF")],
        0,
        (0, 0),
        "status 15, asked [job.spark in.txt], 2 read, 0 written\nnot text: in.txt\n",
    ),
    (
        &RUN,
        &[("job.spark", TWO_COLLECTS), ("in.txt", b"\xC3")],
        0,
        (0, 0),
        "status 15, asked [job.spark in.txt], 2 read, 0 written\nnot text: in.txt\n",
    ),
    (
        &RUN,
        &[
            ("job.spark", TWO_COLLECTS),
            ("in.txt", b"b a\nb\n\xC0\xAF\n"),
        ],
        0,
        (0, 0),
        "status 15, asked [job.spark in.txt], 2 read, 0 written\nnot text: in.txt\n",
    ),
    (
        &RUN,
        &[("job.spark", TWO_COLLECTS), ("in.txt", b"\xED\xA0\x80")],
        0,
        (0, 0),
        "status 15, asked [job.spark in.txt], 2 read, 0 written\nnot text: in.txt\n",
    ),
    // The next input isn't asked for.
    (
        &RUN,
        &[
            ("job.spark", THREE_INPUTS),
            ("a.txt", b"1\n"),
            ("b.txt", b"\xFF"),
            ("c.txt", b"3\n"),
        ],
        0,
        (0, 0),
        "status 15, asked [job.spark a.txt b.txt], 3 read, 0 written\nnot text: b.txt\n",
    ),
    // A write that fails, and what was written of it.
    (
        &RUN,
        &[("job.spark", TWO_COLLECTS), IN],
        0,
        (1, 0),
        "status 12, asked [job.spark in.txt], 2 read, 1 written\nwrite failed\n",
    ),
    (
        &RUN,
        &[("job.spark", TWO_COLLECTS), IN],
        0,
        (2, 0),
        "status 12, asked [job.spark in.txt], 2 read, 2 written\nb a!\nb!\nwrite failed\n",
    ),
    (
        &RUN,
        &[("job.spark", TWO_COLLECTS), IN],
        0,
        (2, 2),
        "status 12, asked [job.spark in.txt], 2 read, 2 written\nb a!\nb!\nb write failed\n",
    ),
    (
        &RUN,
        &[("job.spark", TWO_COLLECTS), IN],
        0,
        (2, 6),
        "status 12, asked [job.spark in.txt], 2 read, 2 written\nb a!\nb!\nb a\nb\nwrite failed\n",
    ),
    (
        &RUN,
        &[("job.spark", TWO_COLLECTS), IN],
        0,
        (2, 60),
        "status 12, asked [job.spark in.txt], 2 read, 2 written\nb a!\nb!\nb a\nb\nwrite failed\n",
    ),
    // An action whose text is empty writes nothing: the first write of all is the second action's.
    (
        &RUN,
        &[
            ("job.spark", EMPTY_FIRST),
            ("empty.txt", b""),
            ("in.txt", b"a\nb\n"),
        ],
        0,
        (1, 1),
        "status 12, asked [job.spark empty.txt in.txt], 3 read, 1 written\nawrite failed\n",
    ),
    // The text of an action that ends the run isn't begun, and the next ones aren't done.
    (
        &RUN,
        &[(
            "job.spark",
            b"l = parallelize 2 1 0\ncollect l\nreduce l (/ a 0)\ncollect l\n",
        )],
        0,
        (0, 0),
        "status 9, asked [job.spark], 1 read, 1 written\n1\n0\ndriver: action 1: DivideByZero\n",
    ),
    (
        &RUN,
        &[(
            "job.spark",
            b"l = parallelize 2 1 0\ncollect l\nm = map l (/ 1 x)\ncollect m\ncollect l\n",
        )],
        0,
        (0, 0),
        "status 6, asked [job.spark], 1 read, 1 written\n1\n0\n\
         task limit: stage 1 attempt 0 partition 1\n",
    ),
    (
        &RUN,
        &[(
            "job.spark",
            b"l = parallelize 2 1 0\ncollect l\ncount l\ncollect l\n",
        )],
        0,
        (0, 0),
        "status 0, asked [job.spark], 1 read, 3 written\n1\n0\n2\n1\n0\n",
    ),
    // The second of two writes fails.
    (
        &RUN,
        &[("job.spark", b"l = parallelize 1 1\ncollect l\ncount l\n")],
        0,
        (2, 0),
        "status 12, asked [job.spark], 1 read, 2 written\n1\nwrite failed\n",
    ),
    // A script that has a fault: nothing more is read.
    (
        &RUN,
        &[("job.spark", b"\xFF")],
        0,
        (0, 0),
        "status 3, asked [job.spark], 1 read, 0 written\nscript: line 0: NotText\n",
    ),
    (
        &RUN,
        &[("job.spark", b"# \xC3\n")],
        0,
        (0, 0),
        "status 3, asked [job.spark], 1 read, 0 written\nscript: line 0: NotText\n",
    ),
    (
        &RUN,
        &[("job.spark", b"l = sample 3\n\xFF\n")],
        0,
        (0, 0),
        "status 3, asked [job.spark], 1 read, 0 written\nscript: line 0: NotText\n",
    ),
    (
        &RUN,
        &[("job.spark", b"\xED\xA0\x80")],
        0,
        (0, 0),
        "status 3, asked [job.spark], 1 read, 0 written\nscript: line 0: NotText\n",
    ),
    (
        &RUN,
        &[("job.spark", b"collect l\n"), IN],
        0,
        (0, 0),
        "status 3, asked [job.spark], 1 read, 0 written\nscript: line 1: UnknownName\n",
    ),
    // A plan is read behind the script and before the inputs.
    (
        &PLANNED,
        &[
            ("job.spark", ONE_INPUT),
            ("plan.txt", b""),
            ("in.txt", b"a\nb\n"),
        ],
        0,
        (0, 0),
        "status 0, asked [job.spark plan.txt in.txt], 3 read, 1 written\na\nb\n",
    ),
    (
        &PLANNED,
        &[
            ("job.spark", ONE_INPUT),
            ("plan.txt", b"# none\n\nlose 1 0 0\n"),
            ("in.txt", b"a\nb\n"),
        ],
        0,
        (0, 0),
        "status 0, asked [job.spark plan.txt in.txt], 3 read, 1 written\na\nb\n",
    ),
    (
        &PLANNED,
        &[
            ("job.spark", ONE_INPUT),
            ("plan.txt", b"\xFF"),
            ("in.txt", b"a\nb\n"),
        ],
        0,
        (0, 0),
        "status 4, asked [job.spark plan.txt], 2 read, 0 written\nplan: line 0: NotText\n",
    ),
    (
        &PLANNED,
        &[
            ("job.spark", ONE_INPUT),
            ("plan.txt", b"drop 0 1\nlose 2 0 0\n"),
            ("in.txt", b"a\nb\n"),
        ],
        0,
        (0, 0),
        "status 4, asked [job.spark plan.txt], 2 read, 0 written\nplan: line 2: Limit\n",
    ),
    (
        &PLANNED,
        &[
            ("job.spark", ONE_INPUT),
            ("plan.txt", b"drop 0\n"),
            ("in.txt", b"a\nb\n"),
        ],
        0,
        (0, 0),
        "status 4, asked [job.spark plan.txt], 2 read, 0 written\nplan: line 1: Syntax\n",
    ),
    (
        &PLANNED,
        &[
            ("job.spark", ONE_INPUT),
            ("plan.txt", b"\n# a\ncrash 0 1"),
            ("in.txt", b"a\nb\n"),
        ],
        0,
        (0, 0),
        "status 4, asked [job.spark plan.txt], 2 read, 0 written\nplan: line 3: UnknownName\n",
    ),
    (
        &PLANNED,
        &[
            ("job.spark", ONE_INPUT),
            ("plan.txt", b"drop 0 1\r\ndrop 0 1\r\n"),
            ("in.txt", b"a\nb\n"),
        ],
        0,
        (0, 0),
        "status 4, asked [job.spark plan.txt], 2 read, 0 written\nplan: line 2: Twice\n",
    ),
    // Its fault is told before a missing input, and that of the script before the plan is read.
    (
        &PLANNED,
        &[("job.spark", ONE_INPUT), ("plan.txt", b"drop 0")],
        0,
        (0, 0),
        "status 4, asked [job.spark plan.txt], 2 read, 0 written\nplan: line 1: Syntax\n",
    ),
    (
        &PLANNED,
        &[("job.spark", ONE_INPUT), ("plan.txt", b"drop 0 0")],
        0,
        (0, 0),
        "status 5, asked [job.spark plan.txt in.txt], 2 read, 0 written\ninput: in.txt: missing\n",
    ),
    (
        &PLANNED,
        &[("job.spark", b"collect l"), ("plan.txt", b"drop 0")],
        0,
        (0, 0),
        "status 3, asked [job.spark], 1 read, 0 written\nscript: line 1: UnknownName\n",
    ),
    // A plan that fails to be read or isn't there is told as an input.
    (
        &PLANNED,
        &[("job.spark", ONE_INPUT), ("plan.txt", b"")],
        2,
        (0, 0),
        "status 5, asked [job.spark plan.txt], 1 read, 0 written\ninput: plan.txt: failed\n",
    ),
    (
        &["run", "job.spark", "--plan", "other.txt"],
        &[("job.spark", ONE_INPUT), ("plan.txt", b"")],
        0,
        (0, 0),
        "status 5, asked [job.spark other.txt], 1 read, 0 written\ninput: other.txt: missing\n",
    ),
    (
        &["run", "job.spark", "--plan", ""],
        &[("job.spark", ONE_INPUT), ("plan.txt", b"")],
        0,
        (0, 0),
        "status 5, asked [job.spark ], 1 read, 0 written\ninput: : missing\n",
    ),
    (
        &[
            "run",
            "job.spark",
            "--plan",
            "plan.txt",
            "--plan",
            "plan.txt",
        ],
        &[("job.spark", ONE_INPUT), ("plan.txt", b"")],
        0,
        (0, 0),
        "status 2, asked [], 0 read, 0 written\nusage\n",
    ),
    // A plan names executors of the run.
    (
        &["run", "job.spark", "--plan", "plan.txt", "--executors=3"],
        &[
            ("job.spark", b"l = parallelize 2 1\ncollect l\n"),
            ("plan.txt", b"lose 2 0 0"),
        ],
        0,
        (0, 0),
        "status 0, asked [job.spark plan.txt], 2 read, 1 written\n1\n",
    ),
    (
        &["run", "job.spark", "--plan", "plan.txt", "--executors=2"],
        &[
            ("job.spark", b"l = parallelize 2 1\ncollect l\n"),
            ("plan.txt", b"lose 2 0 0"),
        ],
        0,
        (0, 0),
        "status 4, asked [job.spark plan.txt], 2 read, 0 written\nplan: line 1: Limit\n",
    ),
    // Each role of a file is a read of its own.
    (
        &PLANNED,
        &[
            ("job.spark", b"l = text \"plan.txt\" 1\ncollect l\n"),
            ("plan.txt", b"twice 0 0 0"),
        ],
        0,
        (0, 0),
        "status 0, asked [job.spark plan.txt plan.txt], 3 read, 1 written\ntwice 0 0 0\n",
    ),
    (
        &RUN,
        &[("job.spark", b"l = text \"job.spark\" 2\ncollect l\n")],
        0,
        (0, 0),
        "status 0, asked [job.spark job.spark], 2 read, 1 written\n\
         l = text \"job.spark\" 2\ncollect l\n",
    ),
    // An input's name is the text that is written, after its escapes.
    (
        &RUN,
        &[
            ("job.spark", b"l = text \"a b.txt\" 1\ncollect l\n"),
            ("a b.txt", b"b\n"),
        ],
        0,
        (0, 0),
        "status 0, asked [job.spark a b.txt], 2 read, 1 written\nb\n",
    ),
    (
        &RUN,
        &[
            ("job.spark", b"l = text \"../\xC3\xA9\" 1\ncollect l\n"),
            ("../é", b"b\n"),
        ],
        0,
        (0, 0),
        "status 0, asked [job.spark ../é], 2 read, 1 written\nb\n",
    ),
    (
        &RUN,
        &[
            ("job.spark", b"l = text \"\\\"\\\\\" 1\ncollect l\n"),
            ("\"\\", b"b\n"),
        ],
        0,
        (0, 0),
        "status 0, asked [job.spark \"\\], 2 read, 1 written\nb\n",
    ),
    (
        &RUN,
        &[
            ("job.spark", b"l = text \"a\\n\\tb\" 1\ncollect l\n"),
            ("a\n\tb", b"b\n"),
        ],
        0,
        (0, 0),
        "status 0, asked [job.spark a\n\tb], 2 read, 1 written\nb\n",
    ),
    (
        &RUN,
        &[
            ("job.spark", b"l = text \"-\" 1\ncollect l\n"),
            ("-", b"b\n"),
        ],
        0,
        (0, 0),
        "status 0, asked [job.spark -], 2 read, 1 written\nb\n",
    ),
    // An empty script has no action, and this one reads its input all the same.
    (
        &RUN,
        &[("job.spark", b""), IN],
        0,
        (0, 0),
        "status 0, asked [job.spark], 1 read, 0 written\n",
    ),
    (
        &RUN,
        &[
            ("job.spark", b"l = text \"in.txt\" 2\n"),
            ("in.txt", b"b a\n"),
        ],
        0,
        (0, 0),
        "status 0, asked [job.spark in.txt], 2 read, 0 written\n",
    ),
    // Each input is read once, in the order in which they are named first.
    (
        &RUN,
        &[
            ("job.spark", THREE_NODES),
            ("a.txt", b"1\n"),
            ("b.txt", b"2\n3\n"),
        ],
        0,
        (0, 0),
        "status 0, asked [job.spark b.txt a.txt], 3 read, 4 written\n1\n2\n3\n2\n3\n3\n",
    ),
    // Some writes of a word count fail, and some reads.
    (
        &RUN,
        &[("job.spark", WORD_COUNT), IN],
        0,
        (1, 2),
        "status 12, asked [job.spark in.txt], 2 read, 1 written\n(bwrite failed\n",
    ),
    (
        &RUN,
        &[("job.spark", WORD_COUNT), IN],
        1,
        (0, 0),
        "status 5, asked [job.spark], 0 read, 0 written\ninput: job.spark: failed\n",
    ),
    (
        &RUN,
        &[("job.spark", WORD_COUNT), IN],
        2,
        (0, 0),
        "status 5, asked [job.spark in.txt], 1 read, 0 written\ninput: in.txt: failed\n",
    ),
    (
        &RUN,
        &[("job.spark", WORD_COUNT), ("in.txt", b"\xFF")],
        0,
        (0, 0),
        "status 15, asked [job.spark in.txt], 2 read, 0 written\nnot text: in.txt\n",
    ),
];

/// Sees that a run of words over files ends so, where a read and a write fail: a line with the
/// number of how it ended, the names that the source was asked for, in order, how many files the
/// run says that it read and how many pieces were written; and behind it what was written and what
/// is told.
fn assert_run<R: Abort + AllocGlobal + Threads + Wait + time::Clock + Sync>(
    rt: &R,
    words: &[&str],
    files: &[(&str, &[u8])],
    read: u64,
    (write, bytes): (u64, usize),
    end: &str,
) {
    let alloc = rt.alloc();
    let mut outside = Outside::of(rt, MemSource::new(alloc));
    for (name, bytes) in files {
        add(rt, &mut outside.source, *name, *bytes);
    }
    outside.source.fail_at(read).expect(rt, "memory");
    outside.sink.fail_at(write, bytes).expect(rt, "memory");
    let words = strings_of(rt, words);
    let Seen {
        number,
        all,
        reads,
        outside,
        ..
    } = seen_of(rt, &words, outside, &OpenGate, STILL);
    let mut asked = String::new(alloc);
    for name in outside.source.asked() {
        let gap = if asked.is_empty() { "" } else { " " };
        let name = name.as_str();
        write!(asked, "{gap}{name}").expect(rt, "memory");
    }
    let writes = outside.sink.pieces(alloc).expect(rt, "memory").len();
    let seen = format!(in alloc;
        "status {number}, asked [{asked}], {reads} read, {writes} written\n{all}"
    ).expect(rt, "memory");
    assert_eq!(rt; seen.as_str(), end);
}

#[test]
fn the_outside_sees_each_run_so(rt: HostRuntime) {
    for (words, files, read, write, end) in &ROWS {
        assert_run(&rt, *words, *files, *read, *write, *end);
    }
}
