// The words behind a program's name.
use program_io::arg;

// Whether argument number k is this word. The first of the program's arguments, number 0, is its own name.
pub fn asks(rt: &HostRuntime, k: usize, word: &[u8]) -> bool {
    let mut given = [0u8; 64];
    let length = arg(rt, k, &mut given);
    &given[..length] == word
}
