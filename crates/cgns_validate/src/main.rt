// Reads an image of up to 65,536 bytes from standard input and writes one line: `accept` and the four counts, `refuse`, rule and node, or `too long`.
#![tactic(auto)]

ghost use Rattle.std.specs.Prelude.{◌≤◌, length, IfOk};

use std::io;
use std::io::Read;

// How many bytes the reader put in front of the buffer: all, or as many as there were up to the input's end.
fn read_full<R: Read>(input: &mut R, buffer: &mut [u8]) -> io::Result<usize>
    ensures { IfOk result (λ n. n ≤ length buffer.new) }
{
    // No method of `std` fills a buffer as far as the input goes and says how far: `read_exact` tells no count.
    let mut done = 0;
    while done < buffer.len() {
        let n = input.read(&mut buffer[done..])?;
        if n == 0 {
            break;
        }
        done += n;
    }
    Ok(done)
}

fn main(rt: HostRuntime) -> io::Result<()> {
    let mut buffer = [0u8; 65536];
    let mut input = rt.stdin();
    let n = read_full(&mut input, &mut buffer)?;
    if n == buffer.len() && input.read(&mut [0])? != 0 {
        return println!(rt; "too long");
    }
    match validation::validate(&buffer[..n]) {
        Ok(v) => println!(rt;
            "accept {} {} {} {}",
            v.validated, v.skipped, v.zones, v.sections
        ),
        Err(r) => println!(rt; "refuse {} {}", r.rule, r.node),
    }
}
