// Where the programs write: an answer to standard output, a sentence to standard error.
use std::io;
use std::io::Print;

pub fn show(rt: &HostRuntime, answer: &[u8], sentence: &[u8]) -> io::Result<()> {
    rt.stdout().write_all(answer)?;
    rt.stderr().write_all(sentence)
}
