// The writer against T.800's arithmetic and the order of document 01, written a second time, on many sizes and cuts.
// It prints what it compared, and the number of differences.
#![tactic(auto)]

mod writing;

use std::io;

fn main(rt: HostRuntime) -> io::Result<()> {
    let t = writing::run();
    t.print(&rt, b"writer")
}
