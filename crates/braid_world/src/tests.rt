//! Lists of events through the calls, each with what is told and with what book and replicas then have.

use crate::book_calls::nth_sent;
use crate::laws::{Called, calls};
use crate::scene::{Beside, lists, world_of};
use braid_change::{Change, ListPatch, Patch, Text, Update};
use braid_ids::{Agent, Bytes, Frontier, Id};
use braid_outbox::Replica;
use braid_outbox::laws::{Answered, Event, Posted, Reading};
use braid_store::Book;
use std::alloc::Global;
use std::test::Fail;

/// An event as a row names it.
#[derive(Clone, Copy)]
enum What<'a> {
    Write(u32, &'a str),
    Open(u32),
    Carry(u32),
    Cut(u32),
    Keep(u32),
    Back(u32),
    Post(u32),
    Land(u32),
    Ack(u32),
    Foreign(&'a str),
}

/// What the calls tell: where an Open resumes (names between spaces), the head of a Post, the status of a Land.
#[derive(Clone, Copy)]
enum Told<'a> {
    Nothing,
    From(&'a str),
    Head(&'a str),
    Status(u16),
}

/// An event, what is told of it, and then the numbers of confirmed and unsent updates of the first and of the second replica,
/// and of the book's entries.
#[derive(Clone, Copy)]
struct Row<'a> {
    what: What<'a>,
    told: Told<'a>,
    counts: [u32; 5],
}

fn make_row<'a>(what: What<'a>, told: Told<'a>, counts: [u32; 5]) -> Row<'a> {
    Row { what, told, counts }
}

/// A book with a path, two replicas, what is kept of them and open, and all PUTs and replies.
#[derive(Drop)]
struct Scene {
    book: Book,
    path: Bytes,
    replicas: Vec<Replica>,
    besides: Vec<Beside>,
    puts: Vec<Posted>,
    replies: Vec<Answered>,
}

fn check(holds: bool, what: &'static str) -> Result<(), Fail> {
    if holds { Ok(()) } else { Err(what.into()) }
}

fn no_list(alloc: Global) -> Vec<Update> {
    Vec::new(alloc)
}

fn nothing_beside(alloc: Global) -> Beside {
    Beside {
        confirmed: no_list(alloc),
        unsent: no_list(alloc),
        reading: None,
    }
}

fn empty_scene(alloc: Global) -> Result<Scene, Fail> {
    let mut replicas = Vec::new(alloc);
    replicas.push(Replica::new(alloc, Agent::read(alloc, b"a")?))?;
    replicas.push(Replica::new(alloc, Agent::read(alloc, b"b")?))?;
    let mut besides = Vec::new(alloc);
    besides.push(nothing_beside(alloc))?;
    besides.push(nothing_beside(alloc))?;
    Ok(Scene {
        book: Book::new(alloc),
        path: Bytes::of(alloc, b"/d")?,
        replicas,
        besides,
        puts: Vec::new(alloc),
        replies: Vec::new(alloc),
    })
}

/// The set of the names between spaces.
fn names_of(alloc: Global, names: &str) -> Result<Frontier, Fail> {
    let mut ids = Vec::new(alloc);
    for name in names.split_ascii_whitespace() {
        ids.push(Id::read(alloc, name.as_bytes())?)?;
    }
    if ids.len() > 100 {
        return Err("too many names".into());
    }
    Ok(Frontier::of(ids)?)
}

fn body_of(alloc: Global, text: &str) -> Result<Change, Fail> {
    Ok(Change::Body(Text::read(alloc, text.as_bytes())?))
}

/// An update of this name with these parents that changes nothing.
fn update_of(alloc: Global, name: &str, parents: &str) -> Result<Update, Fail> {
    let id = Id::read(alloc, name.as_bytes())?;
    let parents = names_of(alloc, parents)?;
    let none: Vec<Patch> = Vec::new(alloc);
    Ok(Update::build(id, parents, Change::Patches(ListPatch::of(none)))?)
}

fn event_of(alloc: Global, what: What<'_>) -> Result<Event, Fail> {
    Ok(match what {
        What::Write(a, text) => Event::Write {
            a,
            change: body_of(alloc, text)?,
        },
        What::Open(a) => Event::Open { a },
        What::Carry(a) => Event::Carry { a },
        What::Cut(a) => Event::Cut { a },
        What::Keep(a) => Event::Keep { a },
        What::Back(a) => Event::Back { a },
        What::Post(a) => Event::Post { a },
        What::Land(k) => Event::Land { k, full: false },
        What::Ack(k) => Event::Ack { k },
        What::Foreign(name) => Event::Foreign {
            update: update_of(alloc, name, "")?,
        },
    })
}

/// Makes the calls of an event on the scene.
fn happen(alloc: Global, scene: &mut Scene, what: What<'_>) -> Result<Called, Fail> {
    let event = event_of(alloc, what)?;
    if scene.path.get().len() > 1024 {
        return Err("a long path".into());
    }
    let world = world_of(
        alloc,
        &scene.book,
        &scene.path,
        &scene.replicas,
        &scene.besides,
        &scene.puts,
        &scene.replies,
    )?;
    Ok(calls(
        alloc,
        &mut scene.book,
        &scene.path,
        7,
        &mut scene.replicas,
        &world,
        event,
    )?)
}

/// The number of updates in a list that have this name.
fn has_name(updates: &[Update], id: &Id) -> bool {
    for update in updates {
        if update.id() == id {
            return true;
        }
    }
    false
}

/// What an event makes beside book and replicas, as the world's definition has it.
fn note(
    alloc: Global,
    scene: &mut Scene,
    what: What<'_>,
    called: Called,
    carried: bool,
) -> Result<(), Fail> {
    match what {
        What::Open(a) => {
            if let (Some(from), Some(beside)) = (called.from, scene.besides.get_mut(a as usize)) {
                beside.reading = Some(Reading { from, position: 0 });
            }
        }
        What::Carry(a) => {
            if let Some(beside) = scene.besides.get_mut(a as usize) {
                if let Some(reading) = &mut beside.reading {
                    if carried && reading.position < 100 {
                        reading.position += 1;
                    }
                }
            }
        }
        What::Cut(a) => {
            if let Some(beside) = scene.besides.get_mut(a as usize) {
                beside.reading = None;
            }
        }
        What::Back(a) => {
            if let Some(beside) = scene.besides.get_mut(a as usize) {
                beside.reading = None;
            }
        }
        What::Keep(a) => {
            if let Some(replica) = scene.replicas.get(a as usize) {
                let (confirmed, unsent) = lists(alloc, replica)?;
                if let Some(beside) = scene.besides.get_mut(a as usize) {
                    beside.confirmed = confirmed;
                    beside.unsent = unsent;
                }
            }
        }
        What::Post(a) => {
            if let (Some(update), Some(beside)) = (called.head, scene.besides.get(a as usize)) {
                let there = has_name(&beside.confirmed, update.id())
                    || has_name(&beside.unsent, update.id());
                if there {
                    scene.puts.push(Posted { by: a, update })?;
                }
            }
        }
        What::Land(k) => {
            if let (Some(status), Some(put)) = (called.status, scene.puts.get(k as usize)) {
                let by = put.by;
                let id = put.update.id().copy(alloc)?;
                scene.replies.push(Answered { by, id, status })?;
            }
        }
        What::Write(..) | What::Ack(..) | What::Foreign(..) => {}
    }
    Ok(())
}

/// Whether what was told is what a row wants.
fn is_told(alloc: Global, called: &Called, told: Told<'_>) -> Result<bool, Fail> {
    Ok(match (told, &called.from, &called.head, called.status) {
        (Told::Nothing, None, None, None) => true,
        (Told::From(names), Some(from), None, None) => is_set(alloc, from, names)?,
        (Told::Head(name), None, Some(head), None) => head.id().bytes() == name.as_bytes(),
        (Told::Status(wanted), None, None, Some(status)) => status == wanted,
        _ => false,
    })
}

/// Whether a frontier is the set of these names.
fn is_set(alloc: Global, from: &Frontier, names: &str) -> Result<bool, Fail> {
    let names = names_of(alloc, names)?;
    if names.len() != from.len() {
        return Ok(false);
    }
    for n in 0..from.len() {
        if let Some(id) = from.get(n) {
            if !names.holds(id) {
                return Ok(false);
            }
        }
    }
    Ok(true)
}

/// The numbers of updates of both replicas, and of the book's entries.
fn counts_of(scene: &Scene) -> [u32; 5] {
    let mut counts = [0; 5];
    if let (Some(first), Some(second)) = (scene.replicas.get(0), scene.replicas.get(1)) {
        counts = [
            first.confirmed(),
            first.unsent(),
            second.confirmed(),
            second.unsent(),
            scene.book.len() as u32,
        ];
    }
    counts
}

/// Whether a side's subscription has an update to carry: what is sent of the path is longer than its position.
fn has_more(alloc: Global, scene: &Scene, what: What<'_>) -> Result<bool, Fail> {
    let What::Carry(a) = what else {
        return Ok(false);
    };
    let Some(beside) = scene.besides.get(a as usize) else {
        return Ok(false);
    };
    let Some(reading) = &beside.reading else {
        return Ok(false);
    };
    let Ok(_cursor) = scene.book.open(alloc, &scene.path, &reading.from) else {
        return Ok(false);
    };
    let next = nth_sent(
        alloc,
        &scene.book,
        &scene.path,
        &reading.from,
        reading.position,
    )?;
    Ok(next.is_some())
}

fn run(alloc: Global, scene: &mut Scene, rows: &[Row<'_>]) -> Result<(), Fail> {
    for row in rows {
        let carried = has_more(alloc, scene, row.what)?;
        let called = happen(alloc, scene, row.what)?;
        check(is_told(alloc, &called, row.told)?, "what is told")?;
        check(counts_of(scene) == row.counts, "the numbers of updates")?;
        note(alloc, scene, row.what, called, carried)?;
    }
    Ok(())
}

/// Whether both replicas have the same text and the same digest.
fn are_equal(alloc: Global, scene: &Scene) -> Result<bool, Fail> {
    let (Some(first), Some(second)) = (scene.replicas.get(0), scene.replicas.get(1)) else {
        return Ok(false);
    };
    let same = first.body(alloc)?.same(&second.body(alloc)?);
    Ok(same && first.digest(alloc)? == second.digest(alloc)?)
}

#[test]
fn each_event_does_its_calls(rt: HostRuntime) -> Result<(), Fail> {
    let alloc = rt.alloc();
    let mut scene = empty_scene(alloc)?;
    let none = Told::Nothing;
    let rows = [
        make_row(What::Write(0, "hi"), none, [0, 1, 0, 0, 0]),
        // No copy is kept that holds it, so no PUT is made.
        make_row(What::Post(0), Told::Head("a-1"), [0, 1, 0, 0, 0]),
        make_row(What::Land(0), none, [0, 1, 0, 0, 0]),
        make_row(What::Keep(0), none, [0, 1, 0, 0, 0]),
        make_row(What::Post(0), Told::Head("a-1"), [0, 1, 0, 0, 0]),
        make_row(What::Land(0), Told::Status(200), [0, 1, 0, 0, 1]),
        make_row(What::Land(0), Told::Status(200), [0, 1, 0, 0, 1]),
        make_row(What::Ack(0), none, [1, 0, 0, 0, 1]),
        make_row(What::Ack(1), none, [1, 0, 0, 0, 1]),
        make_row(What::Open(1), Told::From(""), [1, 0, 0, 0, 1]),
        make_row(What::Carry(1), none, [1, 0, 1, 0, 1]),
        make_row(What::Carry(1), none, [1, 0, 1, 0, 1]),
        make_row(What::Write(1, "ho"), none, [1, 0, 1, 1, 1]),
        make_row(What::Keep(1), none, [1, 0, 1, 1, 1]),
        make_row(What::Post(1), Told::Head("b-1"), [1, 0, 1, 1, 1]),
        make_row(What::Foreign("x-1"), none, [1, 0, 1, 1, 2]),
        make_row(What::Foreign("a-7"), none, [1, 0, 1, 1, 2]),
        make_row(What::Cut(1), none, [1, 0, 1, 1, 2]),
        make_row(What::Carry(1), none, [1, 0, 1, 1, 2]),
        make_row(What::Open(1), Told::From("a-1"), [1, 0, 1, 1, 2]),
        make_row(What::Carry(1), none, [1, 0, 2, 1, 2]),
        make_row(What::Back(1), none, [1, 0, 1, 1, 2]),
        make_row(What::Land(1), Told::Status(200), [1, 0, 1, 1, 3]),
        make_row(What::Ack(2), none, [1, 0, 2, 0, 3]),
        make_row(What::Open(0), Told::From("a-1"), [1, 0, 2, 0, 3]),
        make_row(What::Carry(0), none, [2, 0, 2, 0, 3]),
        make_row(What::Carry(0), none, [3, 0, 2, 0, 3]),
        make_row(What::Open(1), Told::From("b-1"), [3, 0, 2, 0, 3]),
        make_row(What::Carry(1), none, [3, 0, 3, 0, 3]),
    ];
    run(alloc, &mut scene, &rows)?;
    check(are_equal(alloc, &scene)?, "both replicas are equal")
}

#[test]
fn nothing_happens_past_the_lists(rt: HostRuntime) -> Result<(), Fail> {
    let alloc = rt.alloc();
    let mut scene = empty_scene(alloc)?;
    let none = Told::Nothing;
    let rows = [
        make_row(What::Write(2, "hi"), none, [0; 5]),
        make_row(What::Open(2), none, [0; 5]),
        make_row(What::Carry(2), none, [0; 5]),
        make_row(What::Cut(2), none, [0; 5]),
        make_row(What::Keep(2), none, [0; 5]),
        make_row(What::Back(2), none, [0; 5]),
        make_row(What::Post(2), none, [0; 5]),
        make_row(What::Land(0), none, [0; 5]),
        make_row(What::Ack(0), none, [0; 5]),
        make_row(What::Post(1), none, [0; 5]),
        make_row(What::Carry(1), none, [0; 5]),
    ];
    run(alloc, &mut scene, &rows)
}

#[test]
fn a_refused_put_confirms_nothing(rt: HostRuntime) -> Result<(), Fail> {
    let alloc = rt.alloc();
    let mut scene = empty_scene(alloc)?;
    let lost = update_of(alloc, "a-1", "q-1")?;
    scene.puts.push(Posted {
        by: 0,
        update: lost,
    })?;
    let none = Told::Nothing;
    let rows = [
        make_row(What::Write(0, "hi"), none, [0, 1, 0, 0, 0]),
        make_row(What::Land(0), Told::Status(409), [0, 1, 0, 0, 0]),
        make_row(What::Ack(0), none, [0, 1, 0, 0, 0]),
    ];
    run(alloc, &mut scene, &rows)
}
