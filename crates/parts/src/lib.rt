// A part of the round buffer: the seat's own words, lent on, where the request for it is not refused; none where it is.
#![tactic(auto)]

ghost use Rattle.regions.specs.Refusals.{number_told};
ghost use Rattle.parts.specs.Lent.{PartBy, PartThere};

use regions::Refusal;

// The first words of seat i, as many as count pairs take; none where the request is refused.
pub fn part_words<'a>(
    buffer: &'a [u32],
    asked: Result<(), Refusal>,
    i: u32,
    count: u32,
) -> &'a [u32]
    requires { PartThere (number_told asked) buffer.now i count }
    ensures { PartBy (number_told asked) buffer.entry i count result }
{
    if asked.is_err() {
        return &buffer[..0];
    }
    let a = regions::SEAT_WIDTH * (i as usize);
    let e = a + regions::PAIR_WIDTH * (count as usize);
    &buffer[a..e]
}
