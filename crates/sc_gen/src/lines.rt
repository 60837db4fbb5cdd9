//! The lines.
#![tactic(auto)]

ghost use Rattle.std.specs.Prelude.{◌≡◌, ◌++◌, IfOk};
ghost use Rattle.std.specs.String.{string_bytes};
ghost use Rattle.sc_gen.specs.Workload.{line, next_number, workload};

use std::alloc::{AllocError, Global};

/// So many lines of a word and a number, drawn from a seed below 2^31.
pub fn workload(alloc: Global, seed: u32, size: u32) -> Result<String, AllocError>
    ensures { IfOk result (λ text. string_bytes text ≡ workload seed size) }
{
    let mut text = String::new(alloc);
    let mut number = seed;
    for _ in 0..size {
        let first = next_number(number);
        let second = next_number(first);
        push_line(&mut text, first / 65_536, second / 65_536)?;
        number = second;
    }
    Ok(text)
}

/// The generator's number behind one draw more.
fn next_number(number: u32) -> u32
    ensures { result ≡ next_number number }
{
    ((u64::from(number) * 1_103_515_245 + 12_345) % 2_147_483_648) as u32
}

/// Writes one line of two draws.
fn push_line(text: &mut String, key: u32, value: u32) -> Result<(), AllocError>
    ensures { IfOk result (λ u. string_bytes text.new ≡ string_bytes text.old ++ line key value) }
{
    let word = key % 16;
    let number = value % 1_000;
    writeln!(text, "k{word} {number}")
}
