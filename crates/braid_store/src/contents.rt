//! What a book keeps: resources by path, and where each entry is.

ghost use Rattle.std.specs.Prelude.{◌≡◌, ◌≢◌, ◌↔◌, ◌<◌, ◌≤◌, [], List, ℕ, Some, IfSome, IfNone, IfOk, IsTrue, Contains, slice_get, length};
ghost use Rattle.braid_text.specs.Histories.{IsLegal};
ghost use Rattle.braid_store.specs.Books.{of_path, paths_of};
ghost use Rattle.braid_store.specs.Inside.{entries_in, IsKept, Puts, MayAdd, Adds, HasSpare, SameContents, room_beside};

use crate::limits::{MOST_DELETIONS, MOST_ELEMENTS, MOST_RESOURCES, MOST_VERSIONS, MOST_WIDTH};
use crate::path::Path;
use crate::place::Place;
use crate::put::{Put, answer_of, answer_when_full};
use braid_change::Update;
use braid_ids::{Bytes, Memory};
use braid_text::{Accept, Resource, Room};
use indexmap::IndexMap;
use std::alloc::Global;

/// Resources by path in order of arrival, the places of all entries in order of arrival, and the totals of all resources.
#[derive(Drop)]
pub struct Contents {
    pub resources: IndexMap<Path, Resource>,
    pub places: Vec<Place>,
    pub elements: u64,
    pub deletions: u64,
}

impl Contents {
    /// The resource of a path, where the path has an entry.
    pub fn resource(&self, path: &Bytes) -> Option<&Resource>
        requires kept { IsKept self.now }
        ensures found { IfSome result (λ r. (r.now ≡ of_path (entries_in self.now) path.now) × (r.now ≢ [])) }
        ensures none { IfNone result (of_path (entries_in self.now) path.now ≡ []) }
    {
        self.resources.get(path.get())
    }

    /// Puts an update to a path, or says why not.
    pub fn put(&mut self, alloc: Global, path: &Bytes, by: u32, update: Update) -> Put
        requires kept { IsKept self.old }
        ensures puts { Puts self.old self.new (record { path = path.now; by = by; update = update }) result }
    {
        match self.resources.get_index_of(path.get()) {
            Some(n) => self.put_behind(alloc, n, by, update),
            None => self.put_first(alloc, path, by, update),
        }
    }

    /// Puts an update to the resource with this number.
    fn put_behind(&mut self, alloc: Global, n: usize, by: u32, update: Update) -> Put
        requires kept { IsKept self.old }
        requires there { n < length (paths_of (entries_in self.old)) }
        ensures puts { (path : List ℕ) → slice_get (paths_of (entries_in self.old)) n ≡ Some path
            → Puts self.old self.new (record { path = path; by = by; update = update }) result }
    {
        let room = self.room();
        let Some(resource) = self.resources.get_index_mut(n) else {
            unreachable!()
        };
        if is_held(resource, &update) {
            return Put::Known;
        }
        if self.places.reserve(1).is_err() {
            return Put::Memory;
        }
        let place = Place {
            resource: n as u32,
            number: resource.entries(),
            by,
        };
        let elements = resource.elements();
        let deletions = resource.deletions();
        match resource.accept(alloc, update, &room) {
            Accept::New => {
                self.elements += (resource.elements() - elements) as u64;
                self.deletions += (resource.deletions() - deletions) as u64;
                self.places.push_reserved(place);
                Put::New
            }
            answer => answer_of(answer),
        }
    }

    /// Puts an update to a path that has no entry.
    fn put_first(&mut self, alloc: Global, path: &Bytes, by: u32, update: Update) -> Put
        requires kept { IsKept self.old }
        requires absent { of_path (entries_in self.old) path.now ≡ [] }
        ensures puts { Puts self.old self.new (record { path = path.now; by = by; update = update }) result }
    {
        let mut resource = Resource::new(alloc);
        let answer = resource.accept(alloc, update, &self.room());
        if self.is_full() {
            return answer_when_full(answer);
        }
        match answer {
            Accept::New => {
                let Ok(path) = self.make_room(alloc, path) else {
                    return Put::Memory;
                };
                self.push(path, by, resource);
                Put::New
            }
            answer => answer_of(answer),
        }
    }

    /// Whether there are as many resources as there may be.
    fn is_full(&self) -> bool
        requires kept { IsKept self.now }
        ensures full { IsTrue result ↔ (4096 ≤ length (paths_of (entries_in self.now))) }
    {
        self.resources.len() as u64 >= MOST_RESOURCES
    }

    /// A copy of a path for a key, and room for one resource and one entry more.
    fn make_room(&mut self, alloc: Global, path: &Bytes) -> Result<Path, Memory>
        ensures ok { IfOk result (λ key. (key ≡ path.now) × HasSpare self.new) }
        ensures same { SameContents self.old self.new }
    {
        let key = Path::of(alloc, path)?;
        self.resources.reserve(1)?;
        self.places.reserve(1)?;
        Ok(key)
    }

    /// Adds a resource that has one update.
    fn push(&mut self, path: Path, by: u32, resource: Resource)
        requires kept { IsKept self.old }
        requires absent { of_path (entries_in self.old) path ≡ [] }
        requires may { MayAdd self.old path by resource }
        requires spare { HasSpare self.old }
        ensures adds { Adds self.old self.new path by resource }
        ensures kept { IsKept self.new }
    {
        let place = Place {
            resource: self.resources.len() as u32,
            number: 0,
            by,
        };
        self.elements += resource.elements() as u64;
        self.deletions += resource.deletions() as u64;
        self.places.push_reserved(place);
        let Ok(_) = self.resources.insert(path, resource) else {
            unreachable!()
        };
    }

    /// What the limits leave beside the entries.
    fn room(&self) -> Room
        requires kept { IsKept self.now }
        ensures room { result ≡ room_beside (entries_in self.now) }
    {
        Room {
            versions: MOST_VERSIONS - self.places.len() as u64,
            elements: MOST_ELEMENTS - self.elements,
            deletions: MOST_DELETIONS - self.deletions,
            width: MOST_WIDTH,
        }
    }
}

/// Whether a resource holds an update. It takes no memory.
fn is_held(resource: &Resource, update: &Update) -> bool
    requires legal { IsLegal resource.now }
    ensures held { IsTrue result ↔ Contains resource.now update.now }
{
    match resource.find(update.id()) {
        Some(n) => match resource.entry(n) {
            Some(held) => held.same(update),
            None => false,
        },
        None => false,
    }
}
