// The program `verdict`, document 01's 'Writer and program': it reads a problem file from standard input and prints its verdict.
#![tactic(auto)]

fn main(rt: HostRuntime) {
    let stderr = rt.stderr();
    console::on_input(
        &rt,
        &stderr,
        |file| console::print_verdict(&rt, &stderr, file),
    );
}
