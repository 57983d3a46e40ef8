// Test program: prints the table of sentences. Its stored output is the table that `tools/slewtext` reads, so that both tell a refusal in the same words.
#![tactic(auto)]

use refusal_text::write_table;
use std::io;
use std::io::Print;

fn main(rt: HostRuntime) -> io::Result<()> {
    let mut out = [0u8; 8192];
    let n = write_table(&mut out);
    rt.stdout().write_all(&out[..n])
}
