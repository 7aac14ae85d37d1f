// Answers calls on images, both from standard input: a line a call, in the independent program's words.
// The input is 64-bit words: of each image its length and the number of calls, then its bytes, then fourteen words a call.

#![tactic(auto)]

mod lists;
mod print;

ghost use Rattle.std.specs.Prelude.{◌≤◌, length, IfOk};

use entries::ENTRY_LENGTH;
use model::{Rejection, Section};
use print::{Counts, Parents, Sizes};
use std::fmt::Display;
use std::io::{Print, Read};
use std::{array, io};

// How many bytes the reader put in front of the buffer: all, or as many as there were up to the input's end.
fn read_full<R: Read>(input: &mut R, buffer: &mut [u8]) -> io::Result<usize>
    ensures { IfOk result (λ n. n ≤ length buffer.new) }
{
    // `read_exact` tells no count, and goes on where a signal interrupts a read; here that is the input's error.
    let mut done = 0;
    while done < buffer.len() {
        let n = input.read(&mut buffer[done..])?;
        if n == 0 {
            break;
        }
        done += n;
    }
    Ok(done)
}

// Fills the buffer from the input; says whether there was as much.
fn fills<R: Read>(input: &mut R, buffer: &mut [u8]) -> io::Result<bool> {
    Ok(read_full(input, buffer)? == buffer.len())
}

// The words of a call: its number, then its arguments.
fn words_of(call: &[u8; 112]) -> [u64; 14] {
    array::from_fn(|k| words::u64_at(call, 8 * k))
}

// The entry that a call names.
fn entry(call: &[u64; 14]) -> Section {
    Section {
        node: call[1],
        element_type: call[2],
        first: call[3],
        last: call[4],
        offsets_at: call[5],
        offsets_width: call[6],
        connectivity_at: call[7],
        connectivity_width: call[8],
        connectivity_length: call[9],
        parents_at: call[10],
        parents_width: call[11],
    }
}

// A call with the first n of so many places lent: its answer, and the places afterwards. Nothing where there are fewer.
fn filled<
    P: Print,
    T: Copy + Display,
    const N: usize,
    A: Display + Drop,
    F: FnOnce(&mut [T]) -> Result<A, Rejection> + Drop,
>(to: &P, word: &str, mut places: [T; N], n: usize, call: F) -> io::Result<()>
    requires { F.IsAlwaysCallable call }
{
    if N < n {
        return Ok(());
    }
    print::answer(to, word, call(&mut places[..n]))?;
    print::list(to, "room", &places[..n])
}

// The reads of a list with the entries of a zone, in a buffer whose numbers were 170 before, and with room for so many answers, each number 170 before; the
// memory afterwards.
fn reads_into<P: Print>(
    to: &P,
    image: &[u8],
    zone: u64,
    room: usize,
    reads: &[u64],
) -> io::Result<()> {
    if 8 < room {
        return Ok(());
    }
    let mut entries = [170u64; 176];
    let _ = sections::section_entries(image, zone, &mut entries);
    let mut out = [170i64; 8];
    let mut rules = [170u64; 8];
    let answer = reads::corner_reads(image, &entries, reads, &mut out[..room], &mut rules[..room]);
    print::answer(to, "reads", answer)?;
    print::list(to, "room", &out[..room])?;
    print::list(to, "rules", &rules[..room])
}

// Answers a call on an image.
fn answer<P: Print>(to: &P, image: &[u8], call: &[u64; 14]) -> io::Result<()> {
    let node = call[1];
    let number = call[2];
    let room = number as usize;
    match call[0] {
        1 => print::answer(to, "accept", validation::validate(image).map(Counts)),
        2 => print::answer(to, "accept", table::check_table(image).map(|t| t.nodes)),
        3 => filled(
            to,
            "length",
            [170u8; 1024],
            room,
            |out| paths::path(image, node, out),
        ),
        4 => print::answer(to, "sizes", validation::data_size(image, node).map(Sizes)),
        5 => filled(
            to,
            "entries",
            [170u64; 16 * ENTRY_LENGTH],
            ENTRY_LENGTH.saturating_mul(room),
            |out| sections::section_entries(image, node, out),
        ),
        6 => print::answer(
            to,
            "corner",
            corners::corner(image, entry(call), call[12], call[13]),
        ),
        7 => print::value(to, array_values::array_value(image, node, number)),
        8 => filled(
            to,
            "usage",
            [170u8; 1024],
            room,
            |out| faces::face_usage(image, node, out),
        ),
        9 => lists::list_into(to, image, node, room),
        10 => reads_into(to, image, node, room, &call[3..12]),
        11 => filled(to, "corners", [170i64; 64], call[13] as usize, |out| {
            corners::element_corners(image, entry(call), call[12], out)
        }),
        12 => print::answer(to, "bytes", table::name_bytes(image)),
        13 => print::answer(
            to,
            "type",
            corners::element_type(image, entry(call), call[12]),
        ),
        14 => print::answer(
            to,
            "parents",
            faces::parents(image, node, number).map(Parents),
        ),
        15 => filled(to, "agrees", [170u8; 1024], room, |out| {
            faces::parents_agree(image, node, out).map(u64::from)
        }),
        _ => Ok(()),
    }
}

// Answers one call on an image, and says whether there was one.
fn one_call<R: Read, P: Print>(input: &mut R, to: &P, image: &[u8]) -> io::Result<bool> {
    let mut call = [0u8; 112];
    if !fills(input, &mut call)? {
        return Ok(false);
    }
    answer(to, image, &words_of(&call))?;
    println!(to)?;
    Ok(true)
}

// Answers the calls on an image, and says whether all were there.
fn calls_on<R: Read, P: Print>(
    input: &mut R,
    to: &P,
    image: &[u8],
    calls: u64,
) -> io::Result<bool> {
    for _ in 0..calls {
        if !one_call(input, to, image)? {
            return Ok(false);
        }
    }
    Ok(true)
}

// Reads an image and answers the calls on it; says whether there was one.
fn one_image<R: Read, P: Print>(input: &mut R, to: &P) -> io::Result<bool> {
    let mut head = [0u8; 16];
    if !fills(input, &mut head)? {
        return Ok(false);
    }
    let length = words::u64_at(&head, 0) as usize;
    let calls = words::u64_at(&head, 8);
    let mut buffer = [0u8; 65536];
    if buffer.len() < length || !fills(input, &mut buffer[..length])? {
        return Ok(false);
    }
    calls_on(input, to, &buffer[..length], calls)
}

fn main(rt: HostRuntime) -> io::Result<()> {
    let mut input = rt.stdin();
    for _ in 0..1000000 {
        if !one_image(&mut input, &rt)? {
            break;
        }
    }
    Ok(())
}
