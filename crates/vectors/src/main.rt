// Runs the published values, and what none of the functions reaches that C and Rust link, and prints what comes out; the file stdout beside src/
// has the answers, worked out elsewhere. All other values are asked of the linked functions (tests/values), where nothing is proved again.
// The Python twin works the answers out from documents 01 and 003 and looks at no code of ours. What is proved here is that the program ends and
// traps nowhere, not what it prints. A write to standard output that fails is passed over.
#![tactic(auto)]

mod apart;
mod collated;
mod doubles;
mod hex;
mod in_counter_order;
mod numbers;
mod payload;
mod published;
mod readings;
mod texts;
mod walks;

fn main(rt: HostRuntime) {
    let out = rt.stdout();
    published::run(out);
    readings::run(out);
    apart::run(out);
    numbers::run(out);
    doubles::run(out);
    texts::run(out);
    walks::run(out);
    collated::run(out);
    in_counter_order::run(out);
}
