// The printer: reads a set from standard input and prints its plan, a word a line, or the refusal (SCOPE.md, "Printer"). It only reads, calls and writes: what is
// printed of which bytes is `printing::print`'s contract. A read or a write that fails is told on standard error.
#![tactic(auto)]

const HELP: &str =
    "usage: printer < SETFILE\n\nReads a set from standard input, four bytes a word, the lowest first, and prints its plan, a word of eight\nhexadecimal digits on a line, or one line 'refused N at P'.\n\n  --help      prints this\n  --version   prints the version\n\nA read or a write that fails is told on standard error. The exit status is 0 in every case: tools/plan.py\nruns the printer and ends with 0 for a plan, 1 for a refusal and 2 for a failure.\n";

fn main(rt: HostRuntime) {
    program::filter::<{ listing::INPUT }, { printing::TEXT }, _>(
        rt,
        "printer",
        HELP,
        |bytes, text| printing::print(bytes, text),
    );
}
