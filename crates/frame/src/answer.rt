// A line of output: two digits for the answer's number, eight for its value, eight for the compared count, and a line feed.
// The contract cites specs/Answer.antt.
ghost use Rattle.std.specs.Prelude.{◌≡◌};
ghost use Rattle.frame.specs.Answer.{answered};

use super::hex::write_field;

// Writes an answer's 19 bytes at the start of `out`. If `out` is too short for them, it stays as it is.
#[tactic(auto, using(crate::proofs::Laws::Answer::by_room))]
pub fn write_answer(out: &mut [u8], number: u8, value: u32, compared: u32)
    ensures { out.new ≡ answered out.old number value compared }
{
    if out.len() < 19 {
        return;
    }
    write_field(&mut out[0..2], number as u32);
    write_field(&mut out[2..10], value);
    write_field(&mut out[10..18], compared);
    out[18] = 10;
}
