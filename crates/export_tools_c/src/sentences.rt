// What a refusal means, in a sentence (`export_tools::sentences`).
ghost use Rattle.text_writer.specs.Puts.{Puts};
ghost use Rattle.refusal_text.specs.Sentences as Sentences;

#[unsafe(no_mangle)]
pub extern "C" fn slew_explain(
    number: usize,
    place: usize,
    runs: usize,
    sampled: bool,
    out: &mut [u8],
) -> usize
    ensures { Puts out.old 0 (Sentences.explain number place runs sampled) 212 out.new result }
{
    export_tools::sentences::slew_explain(number, place, runs, sampled, out)
}
