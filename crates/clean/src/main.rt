// The program `clean`: reads a set from standard input and writes it without the devices that no task claims, four bytes a word, or the refusal's line (SCOPE.md,
// "Cleaner"). It only reads, calls and writes: what is written for which bytes is `cleaning::clean_file`'s contract. A read or a write that fails is told on
// standard error.
#![tactic(auto)]

const HELP: &str =
    "usage: clean < SETFILE > CLEANFILE\n\nReads a set from standard input, four bytes a word, the lowest first, by the rules that let a device stand which no\ntask claims, and writes it without such devices in the same form, or one line 'refused N at P'. The other devices\nkeep their order, and are numbered anew. A set whose devices are all claimed comes back as it was.\n\n  --help      prints this\n  --version   prints the version\n\nA read or a write that fails is told on standard error. The exit status is 0 in every case: tools/clean.py\nruns this program and ends with 0 for a cleaned set, 1 for a refusal and 2 for a failure.\n";

fn main(rt: HostRuntime) {
    program::filter::<{ listing::INPUT }, { cleaning::FILE }, _>(
        rt,
        "clean",
        HELP,
        |bytes, file| cleaning::clean_file(bytes, file),
    );
}
