// Makes one call, or a pair of calls, many times over on one state, to be timed: every state is handed on by value. The first 512
// bytes of standard input are a load as workspace_test reads it (its sizes are not looked at), every 512 after them a job: its kind
// in a byte, how many times in 32 bits, how many edits in a byte, an edit as workspace_test reads it (9 and the orientation's number
// in a byte, or 2 and the cut's four 32-bit numbers) with zeros up to 17 bytes, a box's two 32-bit sides, and zeros; numbers are
// big-endian. Each job starts from the load, with so many of that edit standing, and on a workspace with eight names kept, of 16 bytes
// each, that differ in the last. Kinds: 1 that edit once more and a back, on a sheet; 2 a turn (orientation 6) and a back, on a
// workspace. 3 a keep and a return on a workspace, under the name at the last of the eight places; 4 the keep alone. 5 a list on a
// sheet, 6 on a workspace, into 240 places. 7 an orientation of number 0, which is refused and changes nothing, on a sheet, 8 on a
// workspace: what is left is handing the state on, where the compiler does not leave that out too. 9 a fit to the box on a sheet, into
// 240 places. Prints for each job the kind, how many times, the last answer (`ok`, `no N`, or `none` without a call), how many edits
// stand at the end, and the sum of the 240 places, modulo 2 to the 32nd, where there are some. No contract can say what is printed:
// that is held to `stdout`.
#![tactic(auto)]

use numbers::io::{tail, u8_at};
use reading::geometry::Size;
use sheet::Sheet;
use sheet::edits::EditRefusal;
use sheet::head::ListHead;
use sheet::listing::ListRefusal;
use std::io;
use test_records::edit::Edit;
use test_records::fields::{number_at, size_at};
use test_records::input::Records;
use test_records::load::Load;
use test_records::text::Ended;
use workspace::Workspace;

const TURN: u32 = 6;

// A job, and the load that it starts from.
#[derive(Clone, Copy, PartialEq, Eq, Debug)]
struct Job<'a> {
    load: Load<'a>,
    kind: u8,
    count: u32,
    edits: u8,
    edit: Edit,
    size: Size,
}

impl<'a> Job<'a> {
    fn new(load: Load<'a>, bytes: &[u8]) -> Job<'a> {
        Job {
            load,
            kind: u8_at(bytes, 0),
            count: number_at(bytes, 1),
            edits: u8_at(bytes, 5),
            edit: Edit::of(tail(bytes, 6)),
            size: size_at(bytes, 23),
        }
    }

    // The load on a sheet, behind the job's edits.
    fn sheet(self) -> Sheet {
        let new = Sheet::new();
        let mut sheet = new
            .load(self.load.block, None, None, self.load.model)
            .unwrap_or(new);
        for _ in 0..self.edits {
            sheet = edited(sheet, self.edit).unwrap_or(sheet);
        }
        sheet
    }

    // The same sheet on a workspace, kept under eight names.
    fn workspace(self) -> Workspace {
        let mut workspace = Workspace::new();
        workspace.sheet = self.sheet();
        for place in 0..8 {
            workspace = workspace.keep(&name_at(place)).unwrap_or(workspace);
        }
        workspace
    }
}

// The name at a place: 16 bytes, the last of them the place's number.
fn name_at(place: u8) -> [u8; 16] {
    let mut name = [b'n'; 16];
    name[15] = place;
    name
}

// The sheet with one more edit.
fn edited(sheet: Sheet, edit: Edit) -> Result<Sheet, EditRefusal> {
    match edit {
        Edit::Orient(number) => sheet.orient(number),
        Edit::Cut(to) => sheet.cut(to),
    }
}

// Puts what a call leaves into a state, which stays as it is where the call is refused, and gives how the call ended.
fn put<S: Copy, E: Copy>(ended: Result<S, E>, state: &mut S) -> Ended
where
    u32: From<E>,
{
    match ended {
        Ok(next) => {
            *state = next;
            Ended(None)
        }
        Err(why) => Ended(Some(u32::from(why))),
    }
}

// How a list or a fit ended.
fn list_ended(answer: Result<ListHead, ListRefusal>) -> Ended {
    match answer {
        Ok(_) => Ended(None),
        Err(why) => Ended(Some(u32::from(why))),
    }
}

// Makes a call so many times over, and gives how the last one ended.
fn last_of<F: FnMut() -> Ended>(count: u32, mut call: F) -> Option<Ended>
    requires { F.IsAlwaysCallable call }
{
    let mut last = None;
    for _ in 0..count {
        last = Some(call());
    }
    last
}

// The last answer, where there was a call, and how many edits stand.
fn print_end(rt: &impl Print, last: Option<Ended>, standing: usize) -> io::Result<()> {
    match last {
        Some(ended) => print!(rt; ": {ended}, standing {standing}"),
        None => print!(rt; ": none, standing {standing}"),
    }
}

// The end of a list or a fit: its buffer is read, since the compiler leaves out what is written into one that nobody reads.
fn print_list_end(
    rt: &impl Print,
    last: Option<Ended>,
    standing: usize,
    buffer: &[u32],
) -> io::Result<()> {
    print_end(rt, last, standing)?;
    let sum = buffer.iter().fold(0u32, |sum, n| sum.wrapping_add(*n));
    print!(rt; ", sum {sum}")
}

fn edits_on_sheet(rt: &impl Print, job: Job<'_>) -> io::Result<()> {
    let mut sheet = job.sheet();
    let last = last_of(job.count, || {
        put(edited(sheet, job.edit), &mut sheet);
        put(sheet.back(), &mut sheet)
    });
    print_end(rt, last, sheet.row.count)
}

fn turns_on_workspace(rt: &impl Print, job: Job<'_>) -> io::Result<()> {
    let mut workspace = job.workspace();
    let last = last_of(job.count, || {
        put(workspace.orient(TURN), &mut workspace);
        put(workspace.back(), &mut workspace)
    });
    print_end(rt, last, workspace.sheet.row.count)
}

fn keeps_and_returns(rt: &impl Print, job: Job<'_>) -> io::Result<()> {
    let name = name_at(7);
    let mut workspace = job.workspace();
    let last = last_of(job.count, || {
        put(workspace.keep(&name), &mut workspace);
        put(workspace.return_to(&name), &mut workspace)
    });
    print_end(rt, last, workspace.sheet.row.count)
}

fn keeps(rt: &impl Print, job: Job<'_>) -> io::Result<()> {
    let name = name_at(7);
    let mut workspace = job.workspace();
    let last = last_of(job.count, || put(workspace.keep(&name), &mut workspace));
    print_end(rt, last, workspace.sheet.row.count)
}

// kept: tried with one function for the three that follow, which hands its own closure on to `last_of` in another: `last_of-last-requires` did not close.
fn lists_on_sheet(rt: &impl Print, job: Job<'_>) -> io::Result<()> {
    let mut buffer = [0; 240];
    let sheet = job.sheet();
    let last = last_of(job.count, || list_ended(sheet.list(&mut buffer)));
    print_list_end(rt, last, sheet.row.count, &buffer)
}

fn lists_on_workspace(rt: &impl Print, job: Job<'_>) -> io::Result<()> {
    let mut buffer = [0; 240];
    let workspace = job.workspace();
    let last = last_of(job.count, || list_ended(workspace.list(&mut buffer)));
    print_list_end(rt, last, workspace.sheet.row.count, &buffer)
}

fn fits_on_sheet(rt: &impl Print, job: Job<'_>) -> io::Result<()> {
    let mut buffer = [0; 240];
    let sheet = job.sheet();
    let last = last_of(job.count, || list_ended(sheet.fit(job.size, &mut buffer)));
    print_list_end(rt, last, sheet.row.count, &buffer)
}

// kept: one function for this and the next would need a trait over sheet and workspace, longer than the two.
fn refusals_on_sheet(rt: &impl Print, job: Job<'_>) -> io::Result<()> {
    let mut sheet = job.sheet();
    let last = last_of(job.count, || put(sheet.orient(0), &mut sheet));
    print_end(rt, last, sheet.row.count)
}

fn refusals_on_workspace(rt: &impl Print, job: Job<'_>) -> io::Result<()> {
    let mut workspace = job.workspace();
    let last = last_of(job.count, || put(workspace.orient(0), &mut workspace));
    print_end(rt, last, workspace.sheet.row.count)
}

// Does one job.
fn run(rt: &impl Print, job: Job<'_>) -> io::Result<()> {
    print!(rt; "kind {}, times {}", job.kind, job.count)?;
    // kept: an enum of the kinds would be made from the number by one match and taken apart by the next.
    match job.kind {
        1 => edits_on_sheet(rt, job)?,
        2 => turns_on_workspace(rt, job)?,
        3 => keeps_and_returns(rt, job)?,
        4 => keeps(rt, job)?,
        5 => lists_on_sheet(rt, job)?,
        6 => lists_on_workspace(rt, job)?,
        7 => refusals_on_sheet(rt, job)?,
        8 => refusals_on_workspace(rt, job)?,
        9 => fits_on_sheet(rt, job)?,
        _ => print!(rt; ": no such kind")?,
    }
    println!(rt;)
}

fn main(rt: HostRuntime) -> io::Result<()> {
    let mut stdin = rt.stdin();
    let mut records = Records::<_, 512>::new(&mut stdin);
    let Some(first) = records.next() else {
        return Ok(());
    };
    let first = first?;
    let load = Load::of(tail(&first, 1));
    for record in records {
        run(&rt, Job::new(load, &record?))?;
    }
    Ok(())
}
