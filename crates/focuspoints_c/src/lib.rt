// The library's three functions for C and Rust, under their names: each calls that of the crate `focuspoints`, which is a library for the
// crates here, and promises what it promises. What is exported takes numbers and slices (a pointer and a length each) and asks nothing of
// what they hold.
#![tactic(auto)]

ghost use Rattle.std.specs.Prelude.{◌≡◌};
ghost use Rattle.reading.specs.Contents.{contents_of};
ghost use Rattle.placing.specs.Focus.{focus_of};
ghost use Rattle.script.specs.Script.{script_text, buffer_with};
ghost use Rattle.focuspoints.specs.Photograph.{given_size, Photographed};
ghost use Rattle.focuspoints.specs.Script.{script_length};
ghost use Rattle.focuspoints.specs.Contents.{ContentsTold};

// One photograph: 01's number where there are no points, 13 where the buffer is too short for them, and 0 with the listing written.
#[unsafe(no_mangle)]
pub extern "C" fn focuspoints_photograph(
    block: &[u8],
    raw_given: u32,
    raw_width: u32,
    raw_height: u32,
    picture_given: u32,
    picture_width: u32,
    picture_height: u32,
    model: &[u8],
    out: &mut [u32],
) -> u32
    ensures { Photographed (focus_of block.now (given_size raw_given raw_width raw_height) (given_size picture_given picture_width picture_height) model.now) out.old result out.new }
{
    focuspoints::focuspoints_photograph(
        block,
        raw_given,
        raw_width,
        raw_height,
        picture_given,
        picture_width,
        picture_height,
        model,
        out,
    )
}

// A whole script: the length of the text that its lines are answered, written at the buffer's front; the largest number where it has
// no room.
#[unsafe(no_mangle)]
pub extern "C" fn focuspoints_script(script: &[u8], out: &mut [u8]) -> usize
    ensures { (result ≡ script_length (script_text script.now) out.old) × (out.new ≡ buffer_with (script_text script.now) out.old) }
{
    focuspoints::focuspoints_script(script, out)
}

// Which of the four tags a block has, in the order of their first kept entries: 1 where it cannot be read, 13 where the buffer is too
// short, and 0 with their number and the tags written.
#[unsafe(no_mangle)]
pub extern "C" fn focuspoints_contents(block: &[u8], out: &mut [u32]) -> u32
    ensures { ContentsTold (contents_of block.now) out.old result out.new }
{
    focuspoints::focuspoints_contents(block, out)
}
