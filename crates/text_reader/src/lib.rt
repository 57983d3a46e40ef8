// The text reader: a struct that holds its text and a position in it, with thin methods over the plain functions on slice and number. Whoever has a plain slice
// calls `read`, whose contract says nothing of the struct.
#![tactic(auto)]

ghost use Rattle.std.specs.Prelude.{◌≡◌};
ghost use Rattle.text.specs.Forms.{loose};
ghost use Rattle.problem_text.specs.Listing as Listings;
ghost use Rattle.problem_text.specs.Reader as Texts;

use problem_text::listing::{Listing, list_at};
use problem_text::{Found, Read, head_at, read_of};

// A text, and where in it the reader stands.
#[derive(Drop)]
pub struct Reader<'a> {
    pub src: &'a [u8],
    pub at: usize,
}

impl<'a> Reader<'a> {
    // A reader at the start of a text.
    pub fn new(src: &'a [u8]) -> Reader<'a>
        ensures { (result.src ≡ src.entry) × (result.at ≡ 0) }
    {
        Reader { src, at: 0 }
    }

    // The first nine lines from the reader's position on; the reader then stands behind them.
    pub fn head(&mut self) -> Found
        ensures found { result ≡ Texts.head_at_value loose self.old.src.now self.old.at }
        ensures behind { (self.new.src ≡ self.old.src) × (self.new.at ≡ (Texts.head_at_value loose self.old.src.now self.old.at).at) }
    {
        let found = head_at(self.src, self.at);
        self.at = found.at;
        found
    }

    // The list of actuators at the reader's position.
    pub fn list(&self) -> Listing
        ensures { result ≡ Listings.list_at_value loose self.now.src.now self.now.at }
    {
        list_at(self.src, self.at)
    }
}

// The problem of a whole text.
#[tactic(auto, unfolding(problem_text::specs::Reader::read_in))]
pub fn read(s: &[u8]) -> Read
    ensures { result ≡ Texts.read_problem s.now }
{
    let mut reader = Reader::new(s);
    let head = reader.head();
    read_of(head, reader.list())
}
