// The whole of a program that turns its standard input into bytes on standard output.
ghost use Rattle.std.specs.Prelude.{◌≤◌, ◌<◌, ◌^◌};

use crate::arguments::{Asked, read_arguments};
use crate::failures::{unread, written};
use crate::input::read_all;
use crate::print_version;

// Does what the arguments ask for. `work` puts what is written of the bytes that were read, at most INPUT of them, at the start of a slice of OUTPUT bytes, and answers
// how many bytes that is.
pub fn filter<const INPUT: usize, const OUTPUT: usize, F: FnOnce(&[u8], &mut [u8]) -> usize>(
    rt: HostRuntime,
    name: &str,
    help: &str,
    work: F,
)
    requires room { (INPUT < 2 ^ 63) × (OUTPUT < 2 ^ 63) }
    requires callable { F.IsAlwaysCallable work }
    requires fits { (read : _) → (begun : _) → (count : _) → (filled : _) → F.post work read begun count filled → count ≤ OUTPUT }
{
    match read_arguments(rt) {
        Asked::Work => {
            let mut bytes = [0u8; INPUT];
            let mut out = [0u8; OUTPUT];
            match read_all(&mut rt.stdin(), &mut bytes) {
                Ok(count) => {
                    let length = work(&bytes[..count], &mut out);
                    written(&rt, name, rt.write_all(&out[..length]));
                }
                Err(failed) => unread(&rt, name, failed.error),
            }
        }
        Asked::Help => written(&rt, name, rt.print(help)),
        Asked::Version => written(&rt, name, print_version(&rt, name)),
        Asked::Other => {
            let _ = eprintln!(rt;
                "{name}: it takes no file name, it reads standard input: {name} < SETFILE"
            );
        }
    }
}
