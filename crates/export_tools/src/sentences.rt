// refusal_text: what a refusal means, in the sentence that the programs print on standard error.
ghost use Rattle.text_writer.specs.Puts.{Puts};
ghost use Rattle.refusal_text.specs.Sentences as Sentences;

// The sentence of a refusal into `out`, as far as it reaches; the answer is how many bytes the sentence has.
pub fn slew_explain(
    number: usize,
    place: usize,
    runs: usize,
    sampled: bool,
    out: &mut [u8],
) -> usize
    ensures { Puts out.old 0 (Sentences.explain number place runs sampled) 212 out.new result }
{
    refusal_text::explain(number, place, runs, sampled, out)
}
