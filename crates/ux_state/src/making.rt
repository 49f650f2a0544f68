//! The first state.
ghost use Rattle.std.specs.Prelude.{◌≡◌, ◌+◌, ◌<◌, ◌≤◌, [], ◌∷◌, ◌++◌, IsTrue, IfOk, IfErr, length, map, replicate, vec_len, vec_capacity, None, Some};
ghost use Rattle.std.specs.List.{list_all, enumerate_from};
ghost use Rattle.ux_model.specs.Limits.{raised_object_limit, process_limit};
ghost use Rattle.ux_model.specs.Names.{file, named};
ghost use Rattle.ux_model.specs.Boot.{are_distinct, boot_state, new_process};
ghost use Rattle.ux_state.specs.Counting.{none_open};

use crate::flights::Flights;
use crate::object_place::{ObjectPlace, ObjectRoom};
use crate::openings::Openings;
use crate::process::Process;
use crate::state::State;
use std::alloc::{AllocError, Global};
use ux_names::{AbstractNames, BindError, PathTarget, Paths, Seed};
use ux_number_sets::NumberSet;
use ux_object::FileObject;
use ux_objects::LayerFile;
use ux_slots::Slots;
use ux_types::{Name, ProcSpec, RAISED_OBJECT_LIMIT};

/// The file objects of a state and their paths, with room for those that are still to come.
#[derive(Drop)]
struct Files<O: FileObject> {
    objects: Vec<ObjectPlace<O>>,
    rooms: Vec<ObjectRoom<O>>,
    paths: Paths,
}

impl<O: FileObject> State<O> {
    /// A state with these open file objects, each under its path, and these processes, numbered from 1
    /// on, in which nothing was made yet; its names are hashed by this seed. The objects come back where memory
    /// runs out.
    pub fn new(
        alloc: Global,
        seed: Seed,
        objects: Vec<(Name, O)>,
        procs: &[ProcSpec],
    ) -> Result<State<O>, Vec<(Name, O)>>
        requires few_objects { length objects.items ≤ raised_object_limit }
        requires few_processes { length procs.now ≤ process_limit }
        requires open { IsTrue (list_all (λ o. (O.view o.1).opened) objects.items) }
        requires own_paths { IsTrue (are_distinct (map (λ o. o.0) objects.items)) }
        ensures state { IfOk result (λ s. s ≡ boot_state (map (λ o. (o.0, O.view o.1)) objects.items) procs.now) }
        ensures back { IfErr result (λ back. back ≡ objects) }
    {
        let count = objects.len();
        let Ok(room) = room_for(alloc, seed, count) else {
            return Err(objects);
        };
        let Ok(openings) = none_for(alloc, count) else {
            return Err(objects);
        };
        let Ok(links) = one_for(alloc, count) else {
            return Err(objects);
        };
        let Ok(settled) = NumberSet::new(alloc, RAISED_OBJECT_LIMIT) else {
            return Err(objects);
        };
        let Ok(processes) = new_processes(alloc, procs) else {
            return Err(objects);
        };
        let Ok(abstract_names) = AbstractNames::with_seed(alloc, seed) else {
            return Err(objects);
        };
        let files = filled(room, objects);
        Ok(State {
            objects: files.objects,
            openings,
            descriptions: Slots::new(alloc),
            processes,
            paths: files.paths,
            links,
            abstract_names,
            flights: Flights::new(alloc),
            settled,
        })
    }
}

/// Room for so many file objects.
fn room_for<O: FileObject>(alloc: Global, seed: Seed, count: usize) -> Result<Files<O>, AllocError>
    ensures objects { IfOk result (λ f. f.objects.items ≡ []) }
    ensures rooms { IfOk result (λ f. vec_len f.rooms ≡ count) }
    ensures objects_room { IfOk result (λ f. count ≤ vec_capacity f.objects) }
    ensures paths { IfOk result (λ f. f.paths.names ≡ []) }
    ensures paths_room { IfOk result (λ f. count ≤ f.paths.room) }
{
    let mut paths = Paths::with_seed(alloc, seed);
    paths.reserve(count)?;
    Ok(Files {
        objects: Vec::with_capacity(alloc, count)?,
        rooms: object_rooms(alloc, count)?,
        paths,
    })
}

/// Rooms for so many file objects.
fn object_rooms<O: FileObject>(
    alloc: Global,
    count: usize,
) -> Result<Vec<ObjectRoom<O>>, AllocError>
    ensures { IfOk result (λ v. vec_len v ≡ count) }
{
    let mut rooms = Vec::with_capacity(alloc, count)?;
    for _n in 0..count {
        rooms.push_reserved(ObjectRoom::new(alloc)?);
    }
    Ok(rooms)
}

/// A count for each of so many file objects, of which nothing is open.
fn none_for(alloc: Global, count: usize) -> Result<Vec<Openings>, AllocError>
    ensures { IfOk result (λ v. v.items ≡ replicate count none_open) }
{
    Ok(vec![in alloc; Openings::new(); count]?)
}

/// A count for each of so many file objects, each of which one path names.
fn one_for(alloc: Global, count: usize) -> Result<Vec<usize>, AllocError>
    ensures { IfOk result (λ v. v.items ≡ replicate count 1) }
{
    Ok(vec![in alloc; 1usize; count]?)
}

/// A process for each that is wanted.
fn new_processes(alloc: Global, procs: &[ProcSpec]) -> Result<Vec<Process>, AllocError>
    ensures { IfOk result (λ v. v.items ≡ map new_process procs.now) }
{
    let mut processes = Vec::with_capacity(alloc, procs.len())?;
    for spec in procs {
        processes.push(Process::new(alloc, spec)?)?;
    }
    Ok(processes)
}

/// These file objects, numbered from 0 on, in room that is there.
fn filled<O: FileObject>(files: Files<O>, objects: Vec<(Name, O)>) -> Files<O>
    requires no_objects { files.objects.items ≡ [] }
    requires objects_room { vec_len objects ≤ vec_capacity files.objects }
    requires rooms { vec_len files.rooms ≡ vec_len objects }
    requires no_paths { files.paths.names ≡ [] }
    requires paths_room { vec_len objects ≤ files.paths.room }
    requires own_paths { IsTrue (are_distinct (map (λ o. o.0) objects.items)) }
    requires few { length objects.items ≤ raised_object_limit }
    requires open { IsTrue (list_all (λ o. (O.view o.1).opened) objects.items) }
    ensures objects { result.objects.items ≡ map (λ o. Some (O.view o.1)) objects.items }
    ensures paths { result.paths.names ≡ map (λ e. (e.1.0, file e.0)) (enumerate_from 0 objects.items) }
{
    let Files {
        objects: mut places,
        mut rooms,
        mut paths,
    } = files;
    for (name, object) in objects {
        let Some(room) = rooms.pop() else {
            // There is one for each.
            unreachable!()
        };
        bind_file(&mut paths, name, places.len() as u32);
        places.push_reserved(ObjectPlace::new(LayerFile::Given(object), room));
    }
    Files {
        objects: places,
        rooms,
        paths,
    }
}

/// One more path, of a file object, in room that is there.
fn bind_file(paths: &mut Paths, name: Name, object: u32)
    requires new { named name paths.old.names ≡ None }
    requires some_room { 0 < paths.old.room }
    ensures names { paths.new.names ≡ paths.old.names ++ (name, file object) ∷ [] }
    ensures room { paths.old.room ≤ paths.new.room + 1 }
{
    match paths.bind(name, PathTarget::File(object)) {
        Ok(()) => {}
        // The name is new and has room, as the contract requires.
        Err(BindError::Taken) => unreachable!(),
        Err(BindError::NoMemory) => unreachable!(),
    }
}
