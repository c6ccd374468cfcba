// The program: reads its arguments, prints the event's lines and a last line that says what it did.
#![tactic(auto)]

use arguments::jobs::read;
use arguments::prints::print;
use page::pages::Page;
use rule_text::reading::bad_field;
use std::alloc::AllocError;
use std::env::FillError;
use std::io::Write;
use std::process::ExitCode;
use std::rt::Env;

// One word more than there may be arguments, so that a surplus is seen.
const WORDS: usize = 8;

// Longer than any argument but a rule with needless zeros; a longer word is refused.
const WORD_OCTETS: usize = 512;

// Room for the longest agenda: a line of at most 145 octets for each day there is, and the summary.
const PAGE_OCTETS: usize = 15_888_200;

// The words behind the program's name, as octets.
fn words(rt: &HostRuntime) -> Result<Vec<Vec<u8>>, AllocError> {
    let heap = rt.alloc();
    let mut all = Vec::new(heap);
    // arguments are asked for by their numbers
    for i in 1..=WORDS {
        let mut word = vec![in heap; 0u8; WORD_OCTETS]?;
        match rt.arg(i, word.as_mut_slice()) {
            Ok(len) => word.truncate(len),
            // refused in every place as an empty word
            Err(FillError::TooLong) => word.truncate(0),
            Err(FillError::NotPresent) => break,
        }
        all.push(word)?;
    }
    Ok(all)
}

// Says which field of a rule is no part of one, if there is such a field.
fn name_part(rt: &HostRuntime, rule: &[u8]) -> anyhow::Result<()> {
    if let Some(field) = bad_field(rule) {
        rt.stderr().write_all(b"agenda: the part is ")?;
        rt.stderr().write_all(field)?;
        rt.stderr().write_all(b"\n")?;
    }
    Ok(())
}

fn run(rt: &HostRuntime) -> anyhow::Result<ExitCode> {
    let heap = rt.alloc();
    let all = words(rt)?;
    let words = all
        .iter()
        .map(|word| word.as_slice())
        .collect::<Vec<&[u8]>>(heap)?;
    // no map_err: the other arm prints and leaves
    let command = match read(words.as_slice()) {
        Ok(command) => command,
        Err(fault) => {
            eprintln!(rt; "agenda: {fault}")?;
            if let [_, _, rule, _, _, _, _] = *words.as_slice() {
                name_part(rt, rule)?;
            }
            return Ok(ExitCode::FAILURE);
        }
    };
    let mut octets = vec![in heap; 0u8; PAGE_OCTETS]?;
    let mut page = Page::new(octets.as_mut_slice());
    match print(&command, &mut page) {
        Ok(_) => {
            rt.stdout().write_all(page.written())?;
            Ok(ExitCode::SUCCESS)
        }
        Err(refusal) => {
            eprintln!(rt; "agenda: {refusal}")?;
            Ok(ExitCode::FAILURE)
        }
    }
}

fn main(rt: HostRuntime) -> anyhow::Result<ExitCode> {
    run(&rt)
}
