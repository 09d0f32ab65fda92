// Runs lists of requests to the guide alone and writes the answers, the order and the tally. Standard input has the lists as 32-bit
// numbers, low byte first: P, V, the count of requests, and six numbers a request as `guide_replay` takes them. P and V are within a job's.
// The file stdin holds the worked placements G1 to G5 and W1 to W6 and kept lists, stdout the Rust's answers to them.
#![tactic(auto)]

ghost use Rattle.std.specs.Prelude.{◌*◌, ◌≤◌, length};

use std::io;
use std::io::{Stdout, Write};

// How many numbers are read, and how many bytes they have.
const WORDS: usize = 65536;

const WORD_BYTES: usize = 4;

const BYTES: usize = WORD_BYTES * WORDS;

// How many requests a list may have.
const REQUESTS: usize = 128;

const REQUEST: usize = alone_list::REQUEST_SIZE;

const ANSWER: usize = alone_list::ANSWER_SIZE;

// The lengths of the storage that a list is run in.
const SPANS: usize = entries::SIZE * window::SPANS * (rules::JOB_PARALLELISM + 1);

const ENTRY: usize = entries::SIZE;

const ORDER: usize = ENTRY * rules::JOB_PLACES;

const TALLY: usize = rules::JOB_PARALLELISM + 1;

const ANSWERS: usize = ANSWER * REQUESTS;

// A line for each answer: the number, the location, the order's length.
fn show_answers(out: &mut Stdout, answers: &[[u32; ANSWER]]) -> io::Result<()> {
    for [number, span, pos, written, ..] in answers {
        writeln!(out, "{number} {span} {pos} {written}")?;
    }
    Ok(())
}

// A line for each entry: value, added, accepted, and parallelism with the lane, which is 0.
fn show_order(out: &mut Stdout, order: &[[u32; ENTRY]]) -> io::Result<()> {
    for [value, added, accepted, parallelism] in order {
        writeln!(out, "{value} {added} {accepted} {parallelism}")?;
    }
    Ok(())
}

// The counts on one line.
fn show_counts(out: &mut Stdout, tally: &[u32]) -> io::Result<()> {
    for count in tally {
        write!(out, "{count} ")?;
    }
    writeln!(out)
}

// The requests, run on a fresh guide: the opening's number, the answers, the order and the tally.
fn run_list(out: &mut Stdout, p: u32, v: u32, requests: &[u32]) -> io::Result<()>
    requires { length requests.now ≤ REQUEST * REQUESTS }
{
    let mut spans = [0u32; SPANS];
    let mut order = [0u32; ORDER];
    let mut tally = [7u32; TALLY];
    let mut answers = [0u32; ANSWERS];
    let number = alone_replay::guide_replay(
        u64::from(p),
        u64::from(v),
        requests,
        &mut spans,
        &mut order,
        &mut tally,
        &mut answers,
    );
    writeln!(out, "{number}")?;
    let (answers, _) = answers.as_chunks::<ANSWER>();
    let answers = &answers[..requests.len() / REQUEST];
    show_answers(out, answers)?;
    if let Some([_, _, _, written, ..]) = answers.last() {
        let (order, _) = order.as_chunks::<ENTRY>();
        let written = *written as usize;
        if written < order.len() {
            show_order(out, &order[..written])?;
        }
    }
    let counts = tally.len().min(p as usize + 1);
    show_counts(out, &tally[..counts])
}

// The first list of the numbers is run. What follows it, or nothing at the end.
fn next_list<'a>(out: &mut Stdout, words: &'a [u32]) -> io::Result<Option<&'a [u32]>> {
    let [p, v, n, rest @ ..] = words else {
        return Ok(None);
    };
    let n = *n as usize;
    if *p == 0 || REQUESTS < n || rest.len() < REQUEST * n {
        return Ok(None);
    }
    let (requests, rest) = rest.split_at(REQUEST * n);
    run_list(out, *p, *v, requests)?;
    Ok(Some(rest))
}

// The numbers of the input.
fn read_words(input: &[u8], words: &mut [u32]) {
    let (numbers, _) = input.as_chunks::<WORD_BYTES>();
    for (word, bytes) in words.iter_mut().zip(numbers) {
        *word = u32::from_le_bytes(*bytes);
    }
}

// All lists, at most 256.
fn run_all(out: &mut Stdout, words: &[u32]) -> io::Result<()> {
    let mut words = words;
    for _ in 0..256 {
        let Some(rest) = next_list(out, words)? else {
            return Ok(());
        };
        words = rest;
    }
    Ok(())
}

fn main(rt: HostRuntime) -> io::Result<()> {
    let mut input = [0u8; BYTES];
    let _ = job_input::read_job(&mut rt.stdin(), &mut input)?;
    let mut words = [0u32; WORDS];
    read_words(&input, &mut words);
    run_all(&mut rt.stdout(), &words)
}
