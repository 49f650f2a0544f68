//! The names of processes and of their descriptors, as far as a script's lines were run.

use crate::fault::NameFault;
use crate::scope::Named;
use std::alloc::{AllocError, Global};
use ux_object::FileObject;
use ux_session::Lead;
use ux_state::State;
use ux_types::{Fd, Pid};

/// A process's name.
#[derive(Debug, Drop)]
struct NamedProcess {
    name: Vec<u8>,
    pid: Pid,
}

/// What a process's line names so: a number and the description to which it led then, or nothing.
#[derive(Debug, Drop)]
struct Given {
    pid: Pid,
    name: Vec<u8>,
    lead: Option<Lead>,
    line: usize,
}

/// The names of a script. A process's are all names of descriptors that its lines gave, and those that it inherited.
#[derive(Debug, Drop)]
pub(crate) struct Names {
    processes: Vec<NamedProcess>,
    given: Vec<Given>,
}

/// Whether a process's number leads where it led when it was named.
fn still_leads<O: FileObject>(state: &State<O>, pid: Pid, lead: &Lead) -> bool {
    if !state.is_live(pid) {
        return false;
    }
    match state.table(pid).get(lead.fd) {
        Some(descriptor) => descriptor.description == lead.id,
        None => false,
    }
}

impl Names {
    pub(crate) fn new(alloc: Global) -> Names {
        Names {
            processes: Vec::new(alloc),
            given: Vec::new(alloc),
        }
    }

    /// The process of this name.
    pub(crate) fn process(&self, name: &[u8]) -> Option<Pid> {
        for process in &self.processes {
            if process.name.as_slice() == name {
                return Some(process.pid);
            }
        }
        None
    }

    /// Names a process.
    pub(crate) fn name_process(
        &mut self,
        alloc: Global,
        name: &[u8],
        pid: Pid,
    ) -> Result<(), AllocError> {
        let name = Vec::from_slice(alloc, name)?;
        self.processes.push(NamedProcess { name, pid })?;
        Ok(())
    }

    /// Names what the call of this line gave, or says that it gave nothing for the name. An earlier meaning of the name goes.
    pub(crate) fn give(
        &mut self,
        alloc: Global,
        pid: Pid,
        name: &[u8],
        lead: Option<Lead>,
        line: usize,
    ) -> Result<(), AllocError> {
        let name = Vec::from_slice(alloc, name)?;
        for given in &mut self.given {
            if given.pid == pid && given.name.as_slice() == name.as_slice() {
                given.lead = lead;
                given.line = line;
                return Ok(());
            }
        }
        self.given.push(Given {
            pid,
            name,
            lead,
            line,
        })?;
        Ok(())
    }

    /// Gives a child the names of its parent, whose numbers it inherits.
    pub(crate) fn inherit(
        &mut self,
        alloc: Global,
        parent: Pid,
        child: Pid,
    ) -> Result<(), AllocError> {
        for place in 0..self.given.len() {
            let Some(given) = self.given.get(place) else {
                return Ok(());
            };
            if given.pid == parent {
                let name = Vec::from_slice(alloc, &given.name)?;
                let (lead, line) = (given.lead, given.line);
                self.given.push(Given {
                    pid: child,
                    name,
                    lead,
                    line,
                })?;
            }
        }
        Ok(())
    }

    /// The names that mean a number in a line of this process: of descriptors that lead where they led, and of processes.
    pub(crate) fn scope<O: FileObject>(
        &self,
        alloc: Global,
        state: &State<O>,
        pid: Pid,
    ) -> Result<Vec<Named>, AllocError> {
        let mut scope = Vec::new(alloc);
        for given in &self.given {
            match given.lead {
                Some(lead) if given.pid == pid && still_leads(state, pid, &lead) => {
                    scope.push(Named::new(alloc, &given.name, lead.fd.0)?)?;
                }
                _ => {}
            }
        }
        self.add_processes(alloc, &mut scope)?;
        Ok(scope)
    }

    fn add_processes(&self, alloc: Global, scope: &mut Vec<Named>) -> Result<(), AllocError> {
        for process in &self.processes {
            scope.push(Named::new(alloc, &process.name, process.pid.0)?)?;
        }
        Ok(())
    }

    /// Why a name means no number in this line of a process.
    pub(crate) fn fault_of(
        &self,
        alloc: Global,
        pid: Pid,
        line: usize,
        name: &[u8],
    ) -> Result<NameFault, AllocError> {
        let text = String::from_utf8_lossy(alloc, name)?;
        for given in &self.given {
            if given.pid == pid && given.name.as_slice() == name {
                return Ok(match given.lead {
                    Some(_) => NameFault::Lost(line, text, given.line),
                    None => NameFault::NotGiven(line, text, given.line),
                });
            }
        }
        Ok(NameFault::Unknown(line, text))
    }
}
