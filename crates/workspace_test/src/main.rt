// Runs a list of calls on one workspace and prints what each answers and leaves in its buffer. A call is 512 bytes: its code in the
// first, then what it takes, then zeros. 1 load: a byte of flags (1 raw size, 2 picture size), the two sizes as four 32-bit
// numbers, the model's length in a byte, the block's length in two, the model, the block. 2 cut: left, top, width, height. 5 back.
// 6 list: the buffer's places in a byte. 7 fit: width, height, and the buffer's places in a byte. 9 orient: the number in a byte.
// 10 keep, 11 return: the name's length in a byte, the name. Another code is taken for 7. Numbers are big-endian. Place i of a buffer
// holds i + 1 before a call. No contract can say what is printed: that is held to `stdout`.
#![tactic(auto)]

use numbers::io::{head, tail, u8_at};
use reading::geometry::Size;
use sheet::head::ListHead;
use sheet::listing::ListRefusal;
use std::io;
use test_records::edit::Edit;
use test_records::fields::size_at;
use test_records::input::Records;
use test_records::load::Load;
use test_records::text::{Ended, Head};
use workspace::Workspace;

// A call with what it takes.
#[derive(Clone, Copy, PartialEq, Eq, Debug)]
enum Call<'a> {
    Load(Load<'a>),
    Edit(Edit),
    Back,
    List { places: u8 },
    Fit { size: Size, places: u8 },
    Keep(&'a [u8]),
    Return(&'a [u8]),
}

// The name of a keep or a return.
fn name_in(taken: &[u8]) -> &[u8] {
    head(tail(taken, 1), usize::from(u8_at(taken, 0)))
}

// The call in a record.
fn call_in(record: &[u8]) -> Call<'_> {
    let taken = tail(record, 1);
    match u8_at(record, 0) {
        1 => Call::Load(Load::of(taken)),
        2 | 9 => Call::Edit(Edit::of(record)),
        5 => Call::Back,
        6 => Call::List {
            places: u8_at(taken, 0),
        },
        10 => Call::Keep(name_in(taken)),
        11 => Call::Return(name_in(taken)),
        _ => Call::Fit {
            size: size_at(taken, 0),
            places: u8_at(taken, 8),
        },
    }
}

// What a call ended with: gives the workspace that it leaves, which is the one before where it was refused.
fn after<E: Copy>(
    rt: &impl Print,
    before: Workspace,
    ended: Result<Workspace, E>,
) -> io::Result<Workspace>
where
    u32: From<E>,
{
    match ended {
        Ok(workspace) => {
            println!(rt; "{}", Ended(None))?;
            Ok(workspace)
        }
        Err(why) => {
            println!(rt; "{}", Ended(Some(u32::from(why))))?;
            Ok(before)
        }
    }
}

fn print_listed(rt: &impl Print, answer: Result<ListHead, ListRefusal>) -> io::Result<()> {
    match answer {
        Ok(l) => {
            let head = Head {
                frame: l.frame,
                points: l.count,
                primary: l.index,
                mode: u32::from(l.mode),
                origin: u32::from(l.origin),
            };
            print!(rt; "{head}")
        }
        Err(why) => print!(rt; "no {}", u32::from(why)),
    }
}

// What a list or a fit answered, and the buffer's numbers.
fn print_list(
    rt: &impl Print,
    answer: Result<ListHead, ListRefusal>,
    buffer: &[u32],
) -> io::Result<()> {
    print_listed(rt, answer)?;
    print!(rt; " |")?;
    for n in buffer {
        print!(rt; " {n}")?;
    }
    println!(rt;)
}

// A buffer of which place i holds i + 1.
fn counted() -> [u32; 255] {
    let mut buffer = [0; 255];
    for (place, number) in buffer.iter_mut().zip(1..) {
        *place = number;
    }
    buffer
}

// Answers one call, and gives the workspace that it leaves.
fn answer(rt: &impl Print, workspace: Workspace, call: Call<'_>) -> io::Result<Workspace> {
    match call {
        Call::Load(l) => {
            let loaded = workspace.load(l.block, l.raw, l.picture, l.model);
            after(rt, workspace, loaded)
        }
        Call::Edit(Edit::Orient(number)) => after(rt, workspace, workspace.orient(number)),
        Call::Edit(Edit::Cut(to)) => after(rt, workspace, workspace.cut(to)),
        Call::Back => after(rt, workspace, workspace.back()),
        Call::List { places } => {
            let mut buffer = counted();
            let out = &mut buffer[..usize::from(places)];
            print_list(rt, workspace.list(out), out)?;
            Ok(workspace)
        }
        Call::Fit { size, places } => {
            let mut buffer = counted();
            let out = &mut buffer[..usize::from(places)];
            print_list(rt, workspace.fit(size, out), out)?;
            Ok(workspace)
        }
        Call::Keep(name) => after(rt, workspace, workspace.keep(name)),
        Call::Return(name) => after(rt, workspace, workspace.return_to(name)),
    }
}

fn main(rt: HostRuntime) -> io::Result<()> {
    let mut workspace = Workspace::new();
    for record in Records::<_, 512>::new(&mut rt.stdin()) {
        workspace = answer(&rt, workspace, call_in(&record?))?;
    }
    Ok(())
}
