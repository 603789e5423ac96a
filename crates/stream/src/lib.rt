// A script that comes in pieces of any size: each piece is answered as far as it goes, and the start of a line whose feed has not come
// yet is held in a lent line.
#![tactic(auto)]

ghost use Rattle.std.specs.Prelude.{ℕ, ◌≡◌, ◌≤◌, ◌==◌, leb, min, take, length, ◌+◌};
ghost use Rattle.std.specs.List.{position};
ghost use Rattle.std.proofs.lemmas.List.Edits.{sets};
ghost use Rattle.session.specs.Lines.{spelled};
ghost use Rattle.text.specs.Put.{Put};
ghost use Rattle.session.specs.Answering.{most_text, sheet_text, sheet_next};
ghost use Rattle.stream.specs.Stream.{Feeds, Ends, line_room};

use sheet::Sheet;
use text::Writer;

// A lent line's places: one character more than a line may have, so that an overlong one is known.
pub const LINE_ROOM: usize = 4097;

// No answer is longer than this.
const MOST_TEXT: usize = 2700;

// A sheet after a piece: how much of a line is held, the place after the answers, and how much of the piece is used.
// kept: the claim of streaming (FedCalls and OneOutcome) names these four
#[derive(Clone, Copy)]
pub struct Fed {
    pub sheet: Sheet,
    pub held: usize,
    pub at: usize,
    pub used: usize,
}

// Tells whether any answer fits into a buffer from a place on.
#[tactic(auto, using(crate::proofs::Laws::room_left))]
fn room_for_answer(len: usize, at: usize) -> bool
    ensures { result ≡ leb (at + most_text) len }
{
    MOST_TEXT <= len.saturating_sub(at)
}

// Answers a line: the sheet after it, and the place after the answer.
fn answer(sheet: Sheet, line: &[u8], out: &mut [u8], at: usize) -> (Sheet, usize)
    ensures left { result.0 ≡ sheet_next sheet (spelled line.now) }
    ensures put { Put out.old at (sheet_text sheet (spelled line.now)) out.new result.1 }
    ensures short { length (sheet_text sheet (spelled line.now)) ≤ most_text }
{
    let mut writer = Writer::new(out, at);
    let after = session::step(sheet, line, &mut writer);
    (after, writer.at)
}

// Where the first line feed is, if there is one.
fn first_feed(input: &[u8]) -> Option<usize>
    ensures { result ≡ position (λ (b : ℕ). b == 10) input.now }
{
    input.iter().position(|&b| b == b'\n')
}

// Puts characters into a line from a place on.
fn put_run(line: &mut [u8; LINE_ROOM], at: usize, run: &[u8])
    requires { at + length run.now ≤ length line.old }
    ensures { line.new ≡ sets line.old at run.now }
{
    line[at..at + run.len()].copy_from_slice(run);
}

// A lent line, and how many characters at its front are held.
#[derive(Drop)]
struct HeldLine<'a> {
    line: &'a mut [u8; LINE_ROOM],
    held: usize,
    ghost whole: { length line.now ≡ line_room },
    ghost in_line: { held ≤ line_room },
}

impl<'a> HeldLine<'a> {
    ghost use Rattle.stream.specs.Inside.{RunTaken, LineTaken};

    // Where `held` is more than the line has, all of the line is held.
    fn new(line: &'a mut [u8; LINE_ROOM], held: usize) -> HeldLine<'a>
        ensures same_line { result.line.ghost_name ≡ line.entry.ghost_name }
        ensures characters { result.line.now ≡ line.old }
        ensures count { result.held ≡ min held line_room }
    {
        HeldLine {
            line,
            held: held.min(LINE_ROOM),
        }
    }

    // Holds the characters of a piece up to the first line feed, or to its end, as many as there is room for: gives how many they are.
    fn take_run(&mut self, input: &[u8]) -> usize
        ensures same_line { self.new.line.ghost_name ≡ self.old.line.ghost_name }
        ensures run { RunTaken self.old.line.now (take self.old.held self.old.line.now) input.now self.new.line.now self.new.held result }
    {
        let used = first_feed(input).unwrap_or(input.len());
        let held = self.held;
        let kept = used.min(LINE_ROOM - held);
        put_run(self.line, held, &input[..kept]);
        self.held = held + kept;
        used
    }

    // Takes a piece up to its first line feed, which ends a line and has it answered, or to its end.
    fn feed_line(&mut self, sheet: Sheet, input: &[u8], out: &mut [u8], at: usize) -> Fed
        ensures same_line { self.new.line.ghost_name ≡ self.old.line.ghost_name }
        ensures same_count { result.held ≡ self.new.held }
        ensures taken { LineTaken sheet self.old.line.now (take self.old.held self.old.line.now) input.now out.old at out.new self.new.line.now result }
    {
        let used = self.take_run(input);
        let held = self.held;
        if used < input.len() {
            let (sheet, at) = answer(sheet, &self.line[..held], out, at);
            self.held = 0;
            return Fed {
                sheet,
                held: self.held,
                at,
                used: used + 1,
            };
        }
        Fed {
            sheet,
            held,
            at,
            used,
        }
    }

    // Takes a piece line by line, while the buffer has room for an answer.
    fn feed_lines(&mut self, sheet: Sheet, input: &[u8], out: &mut [u8], at: usize) -> Fed
        ensures same_line { self.new.line.ghost_name ≡ self.old.line.ghost_name }
        ensures fed { Feeds sheet self.old.line.now (take self.old.held self.old.line.now) input.now out.old at out.new self.new.line.now result }
    {
        let mut fed = Fed {
            sheet,
            held: self.held,
            at,
            used: 0,
        };
        let mut rest = input;
        while !rest.is_empty() && room_for_answer(out.len(), fed.at) {
            fed = self.feed_line(fed.sheet, rest, out, fed.at);
            rest = &rest[fed.used..];
        }
        fed.used = input.len() - rest.len();
        fed
    }
}

// Takes a piece of a script, of which a line's first `held` characters have come: answers each line that ends in it, at a place of the
// buffer, and holds what comes after them. Stops early where the buffer has no room for another answer: no answer is cut. Where `held`
// is more than the line has, all of the line is held.
pub fn feed(
    sheet: Sheet,
    line: &mut [u8; LINE_ROOM],
    held: usize,
    input: &[u8],
    out: &mut [u8],
    at: usize,
) -> Fed
    ensures { Feeds sheet line.old (take held line.old) input.now out.old at out.new line.new result }
{
    let mut held_line = HeldLine::new(line, held);
    held_line.feed_lines(sheet, input, out, at)
}

// The end of the input: answers the line that is held, if any.
pub fn last(sheet: Sheet, line: &[u8; LINE_ROOM], held: usize, out: &mut [u8], at: usize) -> usize
    ensures { Ends sheet (take held line.now) out.old at out.new result }
{
    let n = held.min(LINE_ROOM);
    let is_empty = n == 0;
    if is_empty {
        return at;
    }
    answer(sheet, &line[..n], out, at).1
}
