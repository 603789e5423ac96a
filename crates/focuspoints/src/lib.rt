// A library for C and Rust: one photograph's focus points, a whole script of call lines, and a note's contents. What is exported takes
// numbers and slices (a pointer and a length each) and asks nothing of what they hold.
#![tactic(auto)]

ghost use Rattle.std.specs.Prelude.{◌≡◌, ◌∷◌, ◌+◌, ◌*◌, ◌≤◌, length};
ghost use Rattle.reading.specs.Contents.{contents_of};
ghost use Rattle.placing.specs.Focus.{focus_of};
ghost use Rattle.sheet.specs.Listing.{over};
ghost use Rattle.script.specs.Script.{script_text, buffer_with};
ghost use Rattle.focuspoints.specs.Photograph.{given_size, Photographed};
ghost use Rattle.focuspoints.specs.Script.{script_length};
ghost use Rattle.focuspoints.specs.Contents.{ContentsTold};
ghost use Rattle.focuspoints.specs.Buffer.{room_number, with_numbers};
ghost use Rattle.focuspoints.specs.Inside.{laid_numbers};

use placing::load::FocusPoints;
use reading::geometry::Size;
use sheet::head::ListHead;

// The numbers that the C interface answers: the numbers are written, the block cannot be read, the buffer is too short.
// kept: the C interface has these in place of a Result, and a number beside a size in place of an Option
const WRITTEN: u32 = 0;

const UNREADABLE: u32 = 1;

const SHORT: u32 = 13;

// A size that is given where the first number is not 0.
#[tactic(auto, unfolding(crate::specs::Photograph::given_size))]
fn given_size(given: u32, width: u32, height: u32) -> Option<Size>
    ensures { result ≡ given_size given width height }
{
    let is_given = given != 0;
    is_given.then_some(Size { width, height })
}

// The listing of a load's points, where it has room: the head's six numbers, and six numbers a point.
fn put_listing(focus: FocusPoints, out: &mut [u32]) -> u32
    requires { (focus.count ≤ 39) × (focus.primary ≤ 39) }
    ensures { (result ≡ room_number (6 + 6 * focus.count) (length out.old)) × (out.new ≡ with_numbers (6 + 6 * focus.count) (laid_numbers focus) out.old) }
{
    if out.len() < 6 {
        return SHORT;
    }
    if !sheet::listing::write_points(focus.points, focus.count, &mut out[6..]) {
        return SHORT;
    }
    let head = ListHead {
        frame: focus.frame,
        count: focus.count,
        index: focus.primary,
        mode: focus.area_mode,
        origin: focus.origin,
    };
    out[..6].copy_from_slice(&head.numbers());
    WRITTEN
}

// One photograph: 01's number where there are no points, 13 where the buffer is too short for them, and 0 with the listing written.
pub fn focuspoints_photograph(
    block: &[u8],
    raw_given: u32,
    raw_width: u32,
    raw_height: u32,
    picture_given: u32,
    picture_width: u32,
    picture_height: u32,
    model: &[u8],
    out: &mut [u32],
) -> u32
    ensures { Photographed (focus_of block.now (given_size raw_given raw_width raw_height) (given_size picture_given picture_width picture_height) model.now) out.old result out.new }
{
    let raw = given_size(raw_given, raw_width, raw_height);
    let picture = given_size(picture_given, picture_width, picture_height);
    match placing::nikon::focus(block, raw, picture, model) {
        Ok(focus) => put_listing(focus, out),
        Err(why) => u32::from(why),
    }
}

// A whole script: the length of the text that its lines are answered, written at the buffer's front; the largest number where it has
// no room.
#[tactic(auto, using(crate::proofs::Script::script_told))]
pub fn focuspoints_script(script: &[u8], out: &mut [u8]) -> usize
    ensures { (result ≡ script_length (script_text script.now) out.old) × (out.new ≡ buffer_with (script_text script.now) out.old) }
{
    script::answer(script, out).unwrap_or(usize::MAX)
}

// Writes a count and four tags at the buffer's front, where there is room.
fn put_tags(count: usize, tags: [u16; 4], out: &mut [u32]) -> u32
    requires { count ≤ 4 }
    ensures { (result ≡ room_number 5 (length out.old)) × (out.new ≡ with_numbers 5 (count ∷ tags) out.old) }
{
    if out.len() < 5 {
        return SHORT;
    }
    out[0] = count as u32;
    out[1] = u32::from(tags[0]);
    out[2] = u32::from(tags[1]);
    out[3] = u32::from(tags[2]);
    out[4] = u32::from(tags[3]);
    WRITTEN
}

// Which of the four tags a block has, in the order of their first kept entries: 1 where it cannot be read, 13 where the buffer is too
// short, and 0 with their number and the tags written.
pub fn focuspoints_contents(block: &[u8], out: &mut [u32]) -> u32
    ensures { ContentsTold (contents_of block.now) out.old result out.new }
{
    match reading::nikon::contents(block) {
        Some(list) => put_tags(list.count, list.tags, out),
        None => UNREADABLE,
    }
}
