// The whole map and the reader against T.800's arithmetic and the steps of document 01, written a second time, on many sizes; and the samples of document 01
// that are run. It prints what it compared, and the number of differences.
#![tactic(auto)]

mod limits;
mod reading;
mod whole;

use std::io;

fn main(rt: HostRuntime) -> io::Result<()> {
    let t = whole::run();
    t.print(&rt, b"whole map")?;
    let u = limits::run();
    u.print(&rt, b"samples of document 01")?;
    let v = reading::run();
    v.print(&rt, b"reader")
}
