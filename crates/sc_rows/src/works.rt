//! Runs to be: the words and the files that a table has, and the work that they are read as.
#![tactic(auto)]

use sc_input::MemSource;
use sc_lineage::Work;
use sc_read::{read_plan, read_script, read_work};
use sc_value::{Name, Octets};
use sc_words::read_words;
use std::process::Abort;
use std::thread::Threads;

/// The text of `in.txt` where a table has none.
pub const INPUT: &str = "b a\nb\n";

/// What stands before and behind the first such mark of a case. Where there is none, what stands
/// behind it is nothing that anything answers.
pub fn halves<'a>(case: &'a str, mark: &str) -> (&'a str, &'a str) {
    case.split_once(mark)
        .unwrap_or((case, "(a case without its mark)"))
}

/// The numbers of a line, in order.
pub fn numbers_of<R: Abort + AllocGlobal>(rt: &R, line: &str) -> Vec<u64> {
    let mut numbers = Vec::new(rt.alloc());
    for word in line.split([' ', '.', ',', ':', '@', '-']) {
        if let Ok(number) = word.parse::<u64>() {
            numbers.push(number).expect(rt, "memory");
        }
    }
    numbers
}

/// A number of a line; 0 where there are fewer, or where it has more than 32 bits.
pub fn at(numbers: &[u64], place: usize) -> u32 {
    let number = numbers.get(place).copied().unwrap_or(0);
    u32::try_from(number).unwrap_or(0)
}

/// Adds a file.
pub fn add<R: Abort + AllocGlobal>(rt: &R, source: &mut MemSource, name: &str, bytes: &[u8]) {
    let name = Name::new(rt.alloc(), name).expect(rt, "memory");
    let bytes = Octets::copy_of(rt.alloc(), bytes).expect(rt, "memory");
    source.add(name, bytes).expect(rt, "memory");
}

/// The files of a run: its script, its plan, a text, one without lines and one that is no text.
pub fn source_of<R: Abort + AllocGlobal>(
    rt: &R,
    script: &str,
    plan: &str,
    input: &str,
) -> MemSource {
    let mut source = MemSource::new(rt.alloc());
    add(rt, &mut source, "job.spark", script.as_bytes());
    add(rt, &mut source, "plan.txt", plan.as_bytes());
    add(rt, &mut source, "in.txt", input.as_bytes());
    add(rt, &mut source, "empty.txt", b"");
    add(rt, &mut source, "no_text.txt", b"a\xFF\n");
    source
}

/// The words of a run under the plan, with more words behind them.
pub fn words_of<R: Abort + AllocGlobal>(rt: &R, more: &str) -> Vec<String> {
    let line = format!(in rt.alloc(); "run job.spark --plan plan.txt {more}").expect(rt, "memory");
    let mut words = Vec::new(rt.alloc());
    for word in line.as_str().split_whitespace() {
        let word = String::from_str(rt.alloc(), word).expect(rt, "memory");
        words.push(word).expect(rt, "memory");
    }
    words
}

/// These words.
pub fn strings_of<R: Abort + AllocGlobal>(rt: &R, words: &[&str]) -> Vec<String> {
    let mut strings = Vec::new(rt.alloc());
    for word in words {
        let word = String::from_str(rt.alloc(), *word).expect(rt, "memory");
        strings.push(word).expect(rt, "memory");
    }
    strings
}

/// The work of a script over this text of `in.txt`, under a plan and with more words.
pub fn work_of<R: Abort + AllocGlobal + Threads + Sync>(
    rt: &R,
    script: &str,
    plan: &str,
    more: &str,
    input: &str,
) -> Work {
    let alloc = rt.alloc();
    let words = words_of(rt, more);
    let Ok(command) = read_words(alloc, &words) else {
        panic!(rt; "no command")
    };
    let mut source = source_of(rt, script, plan, input);
    let mut reads = Vec::new(alloc);
    let script = read_script(alloc, &mut source, &command.script, &mut reads);
    let script = script.ok().expect(rt, "a script");
    let limits = command.limits;
    let Ok(plan) = read_plan(
        alloc,
        &mut source,
        command.plan,
        limits.executors,
        &mut reads,
    ) else {
        panic!(rt; "no plan")
    };
    let work = read_work(rt, alloc, &mut source, script, plan, limits, &mut reads);
    work.ok().expect(rt, "inputs")
}
