// The head of a stored text: what is asked of it, how many words go with it, and where its parts stand in the block.
ghost use Rattle.std.specs.Prelude.{◌≤◌, length, IfSome};
ghost use Rattle.replay_texts.specs.Heads as Heads;

use cases::read::{Word, stands_before, word_at, words};

#[derive(Clone, Copy)]
pub struct Head {
    pub kind: u64,
    pub words: usize,
    pub text: usize,
    pub answer: usize,
    pub end: usize,
}

// What a head's line says: what is asked, how many bytes of the text, words and bytes of the answer there are; and where the line ends.
#[derive(Clone, Copy)]
struct HeadLine {
    kind: u64,
    text: u64,
    words: u64,
    answer: u64,
    end: usize,
}

// The word at a position, if b ends it.
fn word_before(s: &[u8], at: usize, b: u8) -> Option<Word> {
    let w = word_at(s, at);
    if !w.going && stands_before(s, w.next, b) {
        Some(w)
    } else {
        None
    }
}

// The head's line at a position, if it is whole.
fn line(s: &[u8], at: usize) -> Option<HeadLine> {
    let kind = word_before(s, at, b' ')?;
    let text = word_before(s, kind.next, b' ')?;
    let words = word_before(s, text.next, b' ')?;
    let answer = word_before(s, words.next, b'\n')?;
    Some(HeadLine {
        kind: kind.value,
        text: text.value,
        words: words.value,
        answer: answer.value,
        end: answer.next,
    })
}

// A length or a place, at most a block's size: a case that reaches there does not end within its block.
fn within_block(n: u64) -> usize
    ensures { result ≤ 65536 }
{
    n.min(65536) as usize
}

// The parts of a case whose text starts at `text`, if a line feed stands behind its answer.
fn parts(s: &[u8], line: HeadLine, text: usize) -> Option<Head>
    requires { line.words ≤ 1000 }
    ensures { IfSome result (Heads.Ordered (length s.now)) }
{
    let text = within_block(text as u64);
    let answer = text + within_block(line.text);
    let end = answer + within_block(line.answer);
    if end >= s.len() || s[end] != b'\n' {
        return None;
    }
    Some(Head {
        kind: line.kind,
        words: line.words as usize,
        text,
        answer,
        end,
    })
}

// The head at a position, if it is whole, and its words, which are read into v. The line of no words is there, and empty.
pub fn read(s: &[u8], at: usize, v: &mut [u64; 1024]) -> Option<Head>
    ensures { IfSome result (Heads.Ordered (length s.now)) }
{
    let line = line(s, at)?;
    if line.words > 1000 {
        return None;
    }
    let text = words(s, line.end, line.words.max(1), v);
    if !stands_before(s, text, b'\n') {
        return None;
    }
    parts(s, line, text)
}
