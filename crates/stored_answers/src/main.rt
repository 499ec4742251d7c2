// The stored answers: reads stored calls from standard input, makes each on the proved crates, and writes the answer.
// What it must write, the file `stdout`, are the answers of the Rust, so that a port which answers otherwise does not pass.
//
// A stored call is a line of words: lower-case hexadecimal with one space between them, first the call's code (codes.rt), then what the
// call takes, in the order that stands beside the function that makes it. A signed number is its two's complement bits, of 64; a word is
// cut to the type that is taken, save that past an i32 it is 0, that a yes or no is yes at 1 only, and that a byte order is big at 0 only
// (word.rt). `room` is how many entries are lent, each 90 before the call; `area` is how many bytes of the
// area are lent; a set is its base, its count and eight words; `..` is a list, to the end of the line.
// An answer begins with the refusal number, or 0, and ends with what was lent, as the call left it; a record or an area is shown by its
// digest (digest.rt). A line that is no call is answered by `?`. The table of all calls and their answers is in docs/.
// What is lent lies in arrays of fixed length: there is no heap.
#![tactic(auto)]

mod args;
mod assembler;
mod codes;
mod counter;
mod digest;
mod line;
mod out;
mod proxy;
mod sets;
mod word;

ghost use Rattle.std.specs.Prelude.{◌≡◌, ◌≤◌, length};
ghost use Rattle.proxy_record.specs.Words.{proxy_size};

use crate::args::Args;
use crate::assembler::AssemblerCalls;
use crate::codes::{Code, code_of};
use crate::line::read_line;
use crate::out::no_call;
use crate::proxy::ProxyCalls;
use std::io::Read;

// A line's call, made and answered.
fn answer(rt: &impl Print, proxy: &mut ProxyCalls, assembler: &mut AssemblerCalls, line: &[u64]) {
    let Some((code, words)) = line.split_first() else {
        return no_call(rt);
    };
    let Some(code) = code_of(*code, words.len()) else {
        return no_call(rt);
    };
    let c = Args { words };
    match code {
        Code::Sequence(code) => sets::call::<i64>(rt, code, c),
        Code::Fragment(code) => sets::call::<u32>(rt, code, c),
        Code::Assembler(code) => assembler.call(rt, code, c),
        Code::Proxy(code) => proxy.call(rt, code, c),
        Code::Counter => counter::call(rt, c.at(0)),
    }
}

// All lines. A `while`: each line says where the next begins and is read into the same words, which an `Iterator` could not lend out.
fn answer_lines(
    rt: &impl Print,
    proxy: &mut ProxyCalls,
    assembler: &mut AssemblerCalls,
    input: &[u8],
) {
    let mut words = [0u64; 1200];
    let mut rest = input;
    while !rest.is_empty() {
        let line = read_line(rest, &mut words);
        match line.count {
            Some(n) => answer(rt, proxy, assembler, &words[..n]),
            None => no_call(rt),
        }
        rest = line.rest;
    }
}

// Both records from set-up, so that they are good from the first line on.
fn run(rt: &impl Print, proxy: &mut [u64], assembler: &mut [u64], area: &mut [u8], input: &[u8])
    requires { (length proxy.old ≡ proxy_size) × (length assembler.old ≡ 906) }
{
    let _ = writer_proxy::set_up::set_up(proxy);
    let Ok(()) = fragment_assembler::set_up::set_up(assembler, 1, true, 1) else {
        return;
    };
    let mut proxy = ProxyCalls { t: proxy };
    let mut assembler = AssemblerCalls { t: assembler, area };
    answer_lines(rt, &mut proxy, &mut assembler, input);
}

// What was read, with fresh records lent. A large array is lent as an array first: its length is then part of its type.
fn with_records(rt: &impl Print, area: &mut [u8; 264200], input: &[u8]) {
    run(rt, &mut [0u64; 775], &mut [0u64; 906], area, input);
}

// Reads until all that is lent holds bytes or the input ends: how many were read. A read that fails counts as the end.
// What is read is summed by hand: `read_to_end` fills a Vec, and there is no heap; `read_exact` does not say how much came.
fn read_full(reader: &mut impl Read, input: &mut [u8]) -> usize
    ensures { result ≤ length input.new }
{
    let mut done = 0;
    while let Ok(n) = reader.read(&mut input[done..]) {
        if n == 0 {
            break;
        }
        done += n;
    }
    done
}

fn answer_input(rt: &(impl Input + Print), input: &mut [u8]) {
    let n = read_full(&mut rt.reader(), input);
    let mut area = [0u8; 264200];
    with_records(rt, &mut area, &input[..n]);
}

fn with_input(rt: &(impl Input + Print), input: &mut [u8; 400000]) {
    answer_input(rt, input);
}

fn main(rt: HostRuntime) {
    let mut input = [0u8; 400000];
    with_input(&rt, &mut input);
}
