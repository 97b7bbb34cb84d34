// Prints the listing of a run: the step list steps.bin over the table table.bin (document 01, "The printed listing").
#![tactic(auto)]

use std::io;

fn main(rt: HostRuntime) -> io::Result<()> {
    printing::print_listing(&rt, b"table.bin", b"steps.bin")
}
