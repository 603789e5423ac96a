// Answers a line: the call that it spells is made of the sheet, and its answer is written as text.
#![tactic(auto)]

ghost use Rattle.std.specs.Prelude.{ℕ, ◌≡◌, ◌≤◌, length};
ghost use Rattle.text.specs.Put.{WritesUpTo};
ghost use Rattle.reading.specs.Outcome.{refused, accepted};
ghost use Rattle.sheet.specs.Listing.{list_means, head_numbers};
ghost use Rattle.sheet.specs.Sheet.{ends};
ghost use Rattle.journal.specs.Journal.{cut, orient};
ghost use Rattle.journal.specs.Calls.{load, change, back, list, fit};
ghost use Rattle.journal.specs.SheetCalls.{after_edit};
ghost use Rattle.calls.specs.Format.{model_part, block_part};
ghost use Rattle.session.specs.Lines.{spelled, spelled_in, contents, asks, lent_buffer};
ghost use Rattle.session.specs.Texts.{given_text, outcome_text, answer_text};
ghost use Rattle.session.specs.Answering.{most_text, Answers};

use calls::Call;
use reading::geometry::{Rectangle, Size};
use sheet::Sheet;
use sheet::edits::EditRefusal;
use sheet::head::ListHead;
use sheet::listing::ListRefusal;
use text::Writer;

// The numbers of the refusals that no error enum has: a block that cannot be read, and a malformed line.
const UNREADABLE: u32 = 1;

const MALFORMED: u32 = 14;

// The lines of a listing: its head, and a line a point.
fn put_listing(out: &mut Writer, l: ListHead, words: &[u32])
    ensures { WritesUpTo out.old (given_text (head_numbers l) words.now) most_text out.new }
{
    answers::put_head(out, &l.numbers());
    answers::put_points(out, words, l.count);
}

// The lines of what list or fit answers.
fn put_list(out: &mut Writer, answer: Result<ListHead, ListRefusal>, words: &[u32])
    ensures { WritesUpTo out.old (outcome_text (list_means answer) words.now) most_text out.new }
{
    match answer {
        Ok(l) => put_listing(out, l, words),
        Err(why) => answers::put_no(out, u32::from(why)),
    }
}

// The buffer that list and fit are lent.
fn lent_buffer() -> [u32; 234]
    ensures { result ≡ lent_buffer }
{
    [0; 234]
}

// Answers list.
// kept: list and fit differ in one call, and in what their clauses ask; a closure for that call needs a clause of its own that says both
fn answer_list(sheet: &Sheet, out: &mut Writer)
    ensures { Answers sheet.now (accepted (asks (list lent_buffer))) out.old out.new sheet.now }
{
    let mut words = lent_buffer();
    let answer = sheet.list(&mut words);
    put_list(out, answer, &words);
}

// Answers fit.
fn answer_fit(sheet: &Sheet, size: Size, out: &mut Writer)
    ensures { Answers sheet.now (accepted (asks (fit size lent_buffer))) out.old out.new sheet.now }
{
    let mut words = lent_buffer();
    let answer = sheet.fit(size, &mut words);
    put_list(out, answer, &words);
}

// The sheet after load, cut, orient or back, and the answer's line: refused, the sheet is as it was. The four that call it stay functions
// of their own: what a result of a sheet takes is then cleared for a line that has one, and not for every line.
fn after<E: Into<u32> + Copy>(sheet: &mut Sheet, ended: Result<Sheet, E>, out: &mut Writer)
    ensures left { (number : E → ℕ) → sheet.new ≡ (ends number sheet.old ended).1 }
    ensures written { (number : E → ℕ) → ((why : E) (n : ℕ) → E.converts why n → n ≡ number why) → WritesUpTo out.old (answer_text (after_edit (ends number sheet.old ended)).0) most_text out.new }
{
    match ended {
        Ok(next) => {
            *sheet = next;
            answers::put_ok(out);
        }
        Err(why) => answers::put_no(out, why.into()),
    }
}

// Answers cut.
#[inline(never)]
fn answer_cut(sheet: &mut Sheet, to: Rectangle, out: &mut Writer)
    ensures { Answers sheet.old (accepted (asks (change (cut to.left to.top to.width to.height)))) out.old out.new sheet.new }
{
    after(sheet, sheet.cut(to), out);
}

// Answers back.
#[inline(never)]
fn answer_back(sheet: &mut Sheet, out: &mut Writer)
    ensures { Answers sheet.old (accepted (asks back)) out.old out.new sheet.new }
{
    after(sheet, sheet.back(), out);
}

// Answers orient.
#[inline(never)]
fn answer_orient(sheet: &mut Sheet, number: u32, out: &mut Writer)
    ensures { Answers sheet.old (accepted (asks (change (orient number)))) out.old out.new sheet.new }
{
    after(sheet, sheet.orient(number), out);
}

// Answers load.
#[inline(never)]
fn answer_load(
    sheet: &mut Sheet,
    b: &[u8],
    raw: Option<Size>,
    picture: Option<Size>,
    out: &mut Writer,
)
    ensures { Answers sheet.old (accepted (asks (load (block_part b.now) raw picture (model_part b.now)))) out.old out.new sheet.new }
{
    let loaded = sheet.load(calls::block_part(b), raw, picture, calls::model_part(b));
    after(sheet, loaded, out);
}

// Answers contents.
fn answer_contents(sheet: &Sheet, block: &[u8], out: &mut Writer)
    ensures { Answers sheet.now (accepted (contents block.now)) out.old out.new sheet.now }
{
    match reading::nikon::contents(block) {
        Some(list) => answers::put_tags(out, &list.tags, list.count),
        None => answers::put_no(out, UNREADABLE),
    }
}

// Answers a malformed line.
fn answer_malformed(sheet: &Sheet, out: &mut Writer)
    ensures { Answers sheet.now (refused 14) out.old out.new sheet.now }
{
    answers::put_no(out, MALFORMED);
}

// Answers the bytes of a line, and leaves the sheet after it.
fn answer_bytes(sheet: &mut Sheet, b: &[u8], out: &mut Writer)
    ensures { Answers sheet.old (spelled_in b.now) out.old out.new sheet.new }
{
    match calls::call_of(b) {
        Some(Call::Load { raw, picture }) => answer_load(sheet, b, raw, picture, out),
        Some(Call::Cut(to)) => answer_cut(sheet, to, out),
        Some(Call::Back) => answer_back(sheet, out),
        Some(Call::ListPoints) => answer_list(sheet, out),
        Some(Call::Fit { size }) => answer_fit(sheet, size, out),
        Some(Call::Contents) => answer_contents(sheet, calls::contents_part(b), out),
        Some(Call::Orient { number }) => answer_orient(sheet, number, out),
        None => answer_malformed(sheet, out),
    }
}

// Room for the bytes of a line.
fn no_bytes() -> [u8; 2048]
    ensures { 2048 ≡ length result }
{
    [0; 2048]
}

// Answers a line: gives the sheet that its call leaves, and writes the answer's text.
pub fn step(sheet: Sheet, line: &[u8], out: &mut Writer) -> Sheet
    ensures { Answers sheet (spelled line.now) out.old out.new result }
{
    let mut bytes = no_bytes();
    let Some(n) = hex_lines::decode(line, &mut bytes) else {
        answer_malformed(&sheet, out);
        return sheet;
    };
    let mut next = sheet;
    answer_bytes(&mut next, &bytes[..n], out);
    next
}
