// The call that the bytes of a line spell, and the parts of the bytes that it is given.
#![tactic(auto)]

ghost use Rattle.std.specs.Prelude.{◌≡◌, ◌-◌, ◌<◌, cond, get_or, Some, None};
ghost use Rattle.calls.specs.Format.{call_means, u32_at, sides_at, sides_agree, optional, model_length, load_call, of_length, cut_call, fit_call, by_code, call_of, model_part, block_part, contents_part};

use hex_lines::is_checked;
use numbers::io::{ByteOrder, head, tail, u8_at, u32_of};
use reading::geometry::{Rectangle, Size};

// A call as a line's bytes spell it; what a load or contents is given besides stands in the bytes, see model_part, block_part, contents_part.
#[derive(Clone, Copy, PartialEq, Eq, Debug)]
pub enum Call {
    Load {
        raw: Option<Size>,
        picture: Option<Size>,
    },
    Cut(Rectangle),
    Back,
    ListPoints,
    Fit {
        size: Size,
    },
    Contents,
    Orient {
        number: u32,
    },
}

// The codes of the calls.
const LOAD: u8 = 1;

const CUT: u8 = 2;

const BACK: u8 = 5;

const LIST_POINTS: u8 = 6;

const FIT: u8 = 7;

const CONTENTS: u8 = 8;

const ORIENT: u8 = 9;

// The 32-bit number at `at`.
fn u32_at(b: &[u8], at: usize) -> u32
    ensures { result ≡ u32_at b.now at }
{
    u32_of(tail(b, at), ByteOrder::Big)
}

// The width and the height at `at`.
#[tactic(auto, using(crate::proofs::Laws::two_sides))]
fn sides_at(b: &[u8], at: usize) -> Size
    ensures { result ≡ sides_at b.now at }
{
    let width = u32_at(b, at);
    let height = u32_at(tail(b, at), 4);
    Size { width, height }
}

// The length of a load's model.
fn model_length(b: &[u8]) -> usize
    ensures { (result ≡ model_length b.now) × (result < 256) }
{
    usize::from(u8_at(b, 18))
}

// A size of a load, given or missing; no load has a missing size whose sides are not 0.
#[tactic(auto, unfolding(crate::specs::Format::sides_agree, crate::specs::Format::optional))]
fn load_size(is_given: bool, s: Size) -> Option<Option<Size>>
    ensures { result ≡ cond (sides_agree is_given s) (Some (optional is_given s)) None }
{
    if is_given {
        return Some(Some(s));
    }
    (s.width == 0 && s.height == 0).then_some(None)
}

// A load, where the bytes spell one.
#[tactic(auto, unfolding(crate::specs::Format::load_call, crate::specs::Format::well_formed_load))]
fn load_call(b: &[u8]) -> Option<Call>
    ensures { call_means result ≡ load_call b.now }
{
    let flags = u8_at(b, 1);
    let is_whole = 20 + model_length(b) <= b.len() && flags <= 3;
    if !is_whole {
        return None;
    }
    let raw = load_size(flags % 2 == 1, sides_at(b, 2))?;
    let picture = load_size(flags / 2 % 2 == 1, sides_at(b, 10))?;
    Some(Call::Load { raw, picture })
}

// `call`, where there are `n` bytes.
fn of_length(n: usize, b: &[u8], call: Call) -> Option<Call>
    ensures { call_means result ≡ of_length n b.now (call_means (Some call)) }
{
    (b.len() == n).then_some(call)
}

// A cut, where the bytes spell one.
#[tactic(auto, unfolding(crate::specs::Format::cut_call))]
fn cut_call(b: &[u8]) -> Option<Call>
    ensures { call_means result ≡ cut_call b.now }
{
    let to = Rectangle {
        left: u32_at(b, 1),
        top: u32_at(b, 5),
        width: u32_at(b, 9),
        height: u32_at(b, 13),
    };
    of_length(18, b, Call::Cut(to))
}

// A fit, where the bytes spell one.
#[tactic(auto, unfolding(crate::specs::Format::fit_call))]
fn fit_call(b: &[u8]) -> Option<Call>
    ensures { call_means result ≡ fit_call b.now }
{
    let size = sides_at(b, 1);
    of_length(10, b, Call::Fit { size })
}

// The call that the bytes spell by their code, the first of them.
#[tactic(auto, unfolding(crate::specs::Format::by_code, crate::specs::Format::contents_call, crate::specs::Format::orient_call))]
fn by_code(b: &[u8]) -> Option<Call>
    ensures { call_means result ≡ by_code (get_or b.now 0 0) b.now }
{
    match b {
        [LOAD, ..] => load_call(b),
        [CUT, ..] => cut_call(b),
        [BACK, _] => Some(Call::Back),
        [LIST_POINTS, _] => Some(Call::ListPoints),
        [FIT, ..] => fit_call(b),
        [CONTENTS, _, ..] => Some(Call::Contents),
        [ORIENT, number, _] => Some(Call::Orient {
            number: u32::from(*number),
        }),
        _ => None,
    }
}

// The call that the bytes of a line spell, the check at their end included.
#[tactic(auto, unfolding(crate::specs::Format::call_of))]
pub fn call_of(b: &[u8]) -> Option<Call>
    ensures { call_means result ≡ call_of b.now }
{
    if !is_checked(b) {
        return None;
    }
    by_code(b)
}

// A load's model.
#[tactic(auto, unfolding(crate::specs::Format::model_part))]
pub fn model_part(b: &[u8]) -> &[u8]
    ensures { result.now ≡ model_part b.now }
{
    head(tail(b, 19), model_length(b))
}

// A load's block: what is left before the check.
#[tactic(auto, unfolding(crate::specs::Format::block_part))]
pub fn block_part(b: &[u8]) -> &[u8]
    ensures { result.now ≡ block_part b.now }
{
    let model = model_length(b);
    head(tail(b, 19 + model), b.len().saturating_sub(20 + model))
}

// The block that contents is given: what lies between the code and the check.
#[tactic(auto, unfolding(crate::specs::Format::contents_part))]
pub fn contents_part(b: &[u8]) -> &[u8]
    ensures { result.now ≡ contents_part b.now }
{
    head(tail(b, 1), b.len().saturating_sub(2))
}
