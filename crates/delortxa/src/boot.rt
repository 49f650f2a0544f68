//! What a layer starts with, put together step by step.
ghost use Rattle.std.specs.Prelude.{◌≡◌, ◌<◌, ◌↔◌, ◌⊎◌, [], true, false, length, Err, IfOk, IfErr, IsErrAnd, MatchOption};
ghost use Rattle.ux_model.specs.Limits.{file_limit};
ghost use Rattle.ux_model.specs.Boot.{IsBootState, boot_state};
ghost use Rattle.ux_object.specs.declared.ObjKind.{ObjKind};
ghost use Rattle.ux_kernel.specs.Faults.{fault_of};
ghost use Rattle.delortxa.specs.Boots.{with_object, with_process, with_processes, with_raised_limit};
ghost use Rattle.ux_types.specs.ObjectLimits.{most_objects};

use crate::objects::AnyObject;
use std::alloc::{AllocError, Global};
use std::marker::Model;
use ux_kernel::{BootFault, Kernel, Seed};
use ux_object::{ObjError, ObjKind};
use ux_types::{Bytes, Name, ObjectLimit, ProcSpec};

/// The file objects and the processes that a layer is to start with. Objects are numbered from 0 on and
/// processes from 1 on, in the order in which they are given. Contracts see both lists, which call of each object fails, and
/// how many objects there may be.
pub struct Boot {
    alloc: Global,
    objects: Vec<(Name, AnyObject)>,
    /// What each object is made of, so that it can be made anew.
    recipes: Vec<Recipe>,
    most: ObjectLimit,
    processes: Vec<ProcSpec>,
}

/// What a file object is made of.
#[derive(Drop)]
struct Recipe {
    path: Name,
    kind: ObjKind,
    bytes: Bytes,
    /// Which of its reads and writes fails, counted from 1, or 0.
    fails_at: u32,
}

// Written out, so that it is proved here and not in each function that drops one.
impl Drop for Boot {
    fn drop(self) {
        let Boot {
            alloc: _,
            objects,
            recipes,
            most: _,
            processes,
        } = self;
        drop(objects);
        drop(recipes);
        drop(processes);
    }
}

impl Model for Boot {
    ghost use Rattle.std.specs.Prelude.{◌≡◌, map};
    ghost use Rattle.delortxa.specs.AnyObjects.{any_view, calls_left};
    ghost use Rattle.delortxa.specs.Boots.{Plan};
    ghost use Rattle.delortxa.specs.Recipes.{object_of, failure_of};

    ghost Value = { Plan };

    ghost view = { λ b. record { objects = map (λ o. (o.0, any_view o.1)) b.objects.items; failures = map (λ o. calls_left o.1) b.objects.items; most = b.most; processes = b.processes.items } };

    ghost invariant = { λ b. (map (λ o. (o.0, any_view o.1)) b.objects.items ≡ map object_of b.recipes.items) × (map (λ o. calls_left o.1) b.objects.items ≡ map failure_of b.recipes.items) };
}

impl Boot {
    /// Nothing yet. All that follows is allocated here.
    pub fn new(alloc: Global) -> Boot
        ensures { result ≡ record { objects = []; failures = []; most = ObjectLimit.Usual; processes = [] } }
    {
        Boot {
            alloc,
            objects: Vec::new(alloc),
            recipes: Vec::new(alloc),
            most: ObjectLimit::Usual,
            processes: Vec::new(alloc),
        }
    }

    /// Lets there be 4,096 objects instead of 64.
    pub fn raise_object_limit(self) -> Boot
        ensures { result ≡ with_raised_limit self }
    {
        let mut boot = self;
        boot.most = ObjectLimit::Raised;
        boot
    }

    /// Adds a memory file with a copy of these bytes.
    ///
    /// # Errors
    ///
    /// `Full` exactly for more than 1,048,576 bytes, else `NoMemory`.
    pub fn file(self, path: &[u8], bytes: &[u8]) -> Result<Boot, ObjError>
        ensures made { IfOk result (λ b. b ≡ with_object self path.now ObjKind.Memory bytes.now 0) }
        ensures full { IsErrAnd result (λ e. e ≡ ObjError.Full) ↔ (file_limit < length bytes.now) }
        ensures failed { IfErr result (λ e. (e ≡ ObjError.Full) ⊎ (e ≡ ObjError.NoMemory)) }
    {
        self.object(path, ObjKind::Memory, bytes, 0)
    }

    /// Adds a memory file as `file` does, of which the nth read or write fails with EIO, counted from 1.
    ///
    /// # Errors
    ///
    /// Those of `file`.
    pub fn failing_file(self, path: &[u8], bytes: &[u8], n: u32) -> Result<Boot, ObjError>
        ensures made { IfOk result (λ b. b ≡ with_object self path.now ObjKind.Memory bytes.now n) }
        ensures full { IsErrAnd result (λ e. e ≡ ObjError.Full) ↔ (file_limit < length bytes.now) }
        ensures failed { IfErr result (λ e. (e ≡ ObjError.Full) ⊎ (e ≡ ObjError.NoMemory)) }
    {
        self.object(path, ObjKind::Memory, bytes, n)
    }

    /// Adds a counter at 0 (eventfd(2)).
    ///
    /// # Errors
    ///
    /// `NoMemory`.
    pub fn counter(self, path: &[u8]) -> Result<Boot, ObjError>
        ensures made { IfOk result (λ b. b ≡ with_object self path.now ObjKind.Counter [] 0) }
        ensures failed { IfErr result (λ e. e ≡ ObjError.NoMemory) }
    {
        self.object(path, ObjKind::Counter, b"", 0)
    }

    /// Adds an empty pipe (pipe(7)).
    ///
    /// # Errors
    ///
    /// `NoMemory`.
    pub fn pipe(self, path: &[u8]) -> Result<Boot, ObjError>
        ensures made { IfOk result (λ b. b ≡ with_object self path.now ObjKind.Pipe [] 0) }
        ensures failed { IfErr result (λ e. e ≡ ObjError.NoMemory) }
    {
        self.object(path, ObjKind::Pipe, b"", 0)
    }

    /// Adds an object of this kind: a file with a copy of these bytes, a counter at 0, or an empty pipe. Its nth read
    /// or write fails with EIO, counted from 1; for 0 none does.
    ///
    /// # Errors
    ///
    /// `Full` exactly for a file of more than 1,048,576 bytes, else `NoMemory`.
    pub fn object(self, path: &[u8], kind: ObjKind, bytes: &[u8], n: u32) -> Result<Boot, ObjError>
        ensures made { IfOk result (λ b. b ≡ with_object self path.now kind bytes.now n) }
        ensures full { IsErrAnd result (λ e. e ≡ ObjError.Full) ↔ ((kind ≡ ObjKind.Memory) × (file_limit < length bytes.now)) }
        ensures failed { IfErr result (λ e. (e ≡ ObjError.Full) ⊎ (e ≡ ObjError.NoMemory)) }
    {
        let object = AnyObject::new(self.alloc, kind, bytes, n)?;
        let name = Name::from_slice(self.alloc, path)?;
        let recipe = Recipe {
            path: Name::from_slice(self.alloc, path)?,
            kind,
            bytes: Bytes::from_slice(self.alloc, bytes)?,
            fails_at: n,
        };
        let Boot {
            alloc,
            mut objects,
            mut recipes,
            most,
            processes,
        } = self;
        if recipes.push(recipe).is_err() || objects.push((name, object)).is_err() {
            return Err(ObjError::NoMemory);
        }
        Ok(Boot {
            alloc,
            objects,
            recipes,
            most,
            processes,
        })
    }

    /// Adds a process of this user and group, which may have so many descriptors (below 1 counts as 1, above
    /// 4,096 as 4,096).
    ///
    /// # Errors
    ///
    /// Out of memory.
    pub fn process(self, uid: u32, gid: u32, limit: u32) -> Result<Boot, AllocError>
        ensures { IfOk result (λ b. b ≡ with_process self (record { uid = uid; gid = gid; privileged = false; limit = limit })) }
    {
        self.spec(ProcSpec {
            uid,
            gid,
            privileged: false,
            limit,
        })
    }

    /// As `process`, of a process that may give credentials that aren't its own.
    ///
    /// # Errors
    ///
    /// Out of memory.
    pub fn privileged(self, uid: u32, gid: u32, limit: u32) -> Result<Boot, AllocError>
        ensures { IfOk result (λ b. b ≡ with_process self (record { uid = uid; gid = gid; privileged = true; limit = limit })) }
    {
        self.spec(ProcSpec {
            uid,
            gid,
            privileged: true,
            limit,
        })
    }

    /// Adds a process.
    fn spec(mut self, spec: ProcSpec) -> Result<Boot, AllocError>
        ensures { IfOk result (λ b. b ≡ with_process self spec) }
    {
        self.processes.push(spec)?;
        Ok(self)
    }

    /// A boot with the same objects, made anew, as many of which there may be, and these processes.
    ///
    /// # Errors
    ///
    /// Out of memory.
    pub(crate) fn anew(&self, processes: &[ProcSpec]) -> Result<Boot, ObjError>
        ensures { IfOk result (λ b. b ≡ with_processes self.now processes.now) }
    {
        let mut boot = Boot::new(self.alloc);
        for recipe in &self.recipes {
            let bytes = recipe.bytes.as_slice();
            boot = boot.object(recipe.path.as_bytes(), recipe.kind, bytes, recipe.fails_at)?;
        }
        boot.most = self.most;
        boot.processes = Vec::from_slice(self.alloc, processes)?;
        Ok(boot)
    }

    /// The processes, in order.
    pub(crate) fn processes(&self) -> &[ProcSpec]
        ensures { result.now ≡ self.now.processes }
    {
        self.processes.as_slice()
    }

    /// A kernel with all of it, in which nothing was opened yet.
    ///
    /// # Errors
    ///
    /// The first of `TooManyObjects` (64, or 4,096 where the limit was raised), `TooManyProcesses` (64), `BadPath`, `NameTwice`
    /// and `NoMemory`.
    pub fn start(self) -> Result<Kernel<AnyObject>, BootFault>
        ensures state { IfOk result (λ kernel. kernel ≡ boot_state self.objects self.processes) }
        ensures boots { IfOk result (λ kernel. IsBootState kernel) }
        ensures fault { MatchOption (fault_of (most_objects self.most) self.objects self.processes) (IfErr result (λ f. f ≡ BootFault.NoMemory)) (λ due. result ≡ Err due) }
    {
        let Boot {
            alloc,
            objects,
            recipes,
            most,
            processes,
        } = self;
        drop(recipes);
        match Kernel::boot_with_seed(alloc, Seed::fixed(), most, objects, &processes) {
            Ok(kernel) => Ok(kernel),
            // The objects come back with the fault.
            Err((fault, _objects)) => Err(fault),
        }
    }
}
