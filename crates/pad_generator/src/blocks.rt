ghost use Rattle.std.specs.Prelude.{◌≡◌};
ghost use Rattle.pad_generator.specs.Blocks.{blocks_reversed};

use pad_edge::Wire;

/// How many contents stand in a block.
pub(crate) const BLOCK: usize = 16;

/// Turns the contents of each block round.
pub(crate) fn reverse_blocks(contents: &mut [Wire])
    ensures { contents.new ≡ blocks_reversed contents.old }
{
    let size = contents.len();
    for block in 0..size.div_ceil(BLOCK) {
        let from = BLOCK * block;
        let to = if size - from < BLOCK {
            size
        } else {
            from + BLOCK
        };
        contents[from..to].reverse();
    }
}
