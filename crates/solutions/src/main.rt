// The program `solutions`, document 02's N4: it reads a problem file from standard input and prints every solution, in dictionary order.
#![tactic(auto)]

fn main(rt: HostRuntime) {
    let stderr = rt.stderr();
    console::on_input(
        &rt,
        &stderr,
        |file| console::print_solutions(&rt, &stderr, file),
    );
}
