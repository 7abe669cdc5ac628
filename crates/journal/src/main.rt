// The program `journal`: it reads a problem file from standard input and writes the journal's blocks to standard output. An error writes nothing.
#![tactic(auto)]

fn main(rt: HostRuntime) {
    let stderr = rt.stderr();
    console::on_input(
        &rt,
        &stderr,
        |file| console::write_journal(&rt, &stderr, file),
    );
}
