// The listing program: standard input is a digit for the levels, a line feed and a binary PGM; standard output is the listing of document 01.
#![tactic(auto)]

fn main(rt: HostRuntime) {
    listing_io::list(
        &mut rt.stdin(),
        b"standard input",
        &mut rt.stdout(),
        &rt.stderr(),
    );
}
