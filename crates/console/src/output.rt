// Standard output for programs that go on where a write fails.
ghost use Rattle.std.specs.Prelude.{IsOk};

use std::fmt::Display;
use std::io::Result;

// An output that passes over what can't be written, so that the program behind it plays on and reads its input to the end.
#[derive(Clone, Copy)]
pub struct Onward<P> {
    pub output: P,
}

impl<P: Print> Print for Onward<P> {
    fn print<D: Display + Drop>(&self, value: D) -> Result<()>
        ensures { IsOk result }
    {
        let _ = self.output.print(value);
        Ok(())
    }

    fn println<D: Display + Drop>(&self, value: D) -> Result<()>
        ensures { IsOk result }
    {
        let _ = self.output.println(value);
        Ok(())
    }

    fn write_all(&self, bytes: &[u8]) -> Result<()>
        ensures { IsOk result }
    {
        let _ = self.output.write_all(bytes);
        Ok(())
    }
}
