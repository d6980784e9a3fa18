// Reads a bath file from standard input, runs it and prints the report of document 01's "The program".
#![tactic(auto)]

use bath_file::FILE_ROOM;
use program::MOST_NODES;
use report::REPORT_LENGTH;

fn main(rt: HostRuntime) {
    let mut file = [0u8; FILE_ROOM];
    let mut mass = [0u64; MOST_NODES];
    let mut px = [0i64; MOST_NODES];
    let mut py = [0i64; MOST_NODES];
    let mut text = [0u8; REPORT_LENGTH];
    let mut input = rt.stdin();
    let mut output = rt.stdout();
    let mut errors = rt.stderr();
    serve::serve(
        &mut input,
        &mut output,
        &mut errors,
        &mut file,
        &mut mass,
        &mut px,
        &mut py,
        &mut text,
    );
}
