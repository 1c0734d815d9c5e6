// arcsyn: sheets from standard input, the report to standard output.
#![tactic(auto)]

use report::printed;
use std::io;
use std::io::{Read, Write};
use std::process::ExitCode;

// One byte more than a text may have is enough to refuse it.
const ENOUGH: u64 = 32769;

const STORE_BYTES: usize = 16384;

const OUTPUT_BYTES: usize = 8192;

fn read_input(rt: &HostRuntime) -> io::Result<Vec<u8>> {
    let mut text = Vec::new(rt.alloc());
    rt.stdin().take(ENOUGH).read_to_end(&mut text)?;
    Ok(text)
}

fn print_report(rt: &HostRuntime) -> io::Result<()> {
    let text = read_input(rt)?;
    let mut store = vec![in rt.alloc(); 0u8; STORE_BYTES]?;
    let mut output = vec![in rt.alloc(); 0u8; OUTPUT_BYTES]?;
    let count = printed(text.as_slice(), store.as_mut_slice(), output.as_mut_slice());
    rt.stdout()
        .write_all(&output.as_slice()[..count.min(OUTPUT_BYTES)])
}

fn main(rt: HostRuntime) -> ExitCode {
    match print_report(&rt) {
        Ok(()) => ExitCode::SUCCESS,
        Err(error) => {
            let _ = eprintln!(rt; "arcsyn: {error}");
            ExitCode::FAILURE
        }
    }
}
