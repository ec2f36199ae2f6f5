// The rewriting program: standard input is a PGM, standard output the same picture in the fixed form of document 02, Q-7.
#![tactic(auto)]

fn main(rt: HostRuntime) {
    rewriting_io::rewrite(
        &mut rt.stdin(),
        b"standard input",
        &mut rt.stdout(),
        &rt.stderr(),
    );
}
