//! A session beside a watch, asked by the lines of scripts.
ghost use Rattle.std.specs.Prelude.{◌≡◌, [], IfOk};
ghost use Rattle.ux_model.specs.Boot.{IsBootState};

use std::alloc::Global;
use std::test::Fail;
use ux_book::{BookName, Serial, Trail};
use ux_kernel::Kernel;
use ux_objects::FailAt;
use ux_script::objects_of;
use ux_session::{Made, Pending, Session, SessionFault, leads};
use ux_syntax::{Act, Script, parse_script};
use ux_trace::answer_text;
use ux_types::{Pid, Request};
use ux_watch::Watch;

/// What a session is asked for. Calls are lines of scripts.
#[derive(Clone, Copy)]
pub enum Step {
    Call(&'static str),
    Pend(u32, &'static str),
    Cancel(u32),
    Order(u64),
}

/// A session, whose drop is proved once, and what was told of its descriptions.
pub struct Desk<B: BookName> {
    alloc: Global,
    pub session: Session<B, FailAt>,
    pub watch: Watch,
}

impl<B: BookName> Drop for Desk<B> {
    fn drop(self) {
        let Desk {
            alloc: _,
            session,
            watch,
        } = self;
        drop(session);
        drop(watch)
    }
}

/// The script of a header.
pub fn script_of(alloc: Global, text: &str) -> Result<Script, Fail> {
    match parse_script(alloc, text.as_bytes()) {
        Ok(script) => Ok(script),
        Err(_) => Err(Fail::from("no script")),
    }
}

/// A kernel of a script's processes over its file objects.
pub fn kernel_of(alloc: Global, script: &Script) -> Result<Kernel<FailAt>, Fail>
    ensures { IfOk result (λ kernel. IsBootState kernel) }
{
    let objects = objects_of(alloc, script, true)?;
    match Kernel::boot(alloc, objects, &script.procs) {
        Ok(kernel) => Ok(kernel),
        Err(_) => Err(Fail::from("no kernel")),
    }
}

/// A session at the start of a kernel.
pub fn desk_of<B: BookName>(
    alloc: Global,
    trail: Trail,
    kernel: Kernel<FailAt>,
) -> Result<Desk<B>, Fail>
    requires trail { trail ≡ record { id = B.trail; entries = []; given = 0 } }
    requires boots { IsBootState kernel }
    requires named { kernel ≡ B.boot }
{
    let Ok(serial) = Serial::<B, FailAt>::new(alloc, trail, kernel) else {
        return Err(Fail::from("no book"));
    };
    Ok(Desk {
        alloc,
        session: Session::new(alloc, serial),
        watch: Watch::new(alloc),
    })
}

/// The process and the request of a line, which may be of one of three processes.
pub fn request_of(alloc: Global, line: &str) -> Result<(Pid, Request), Fail> {
    let header = "serial\nproc 1 1 0 16\nproc 1 1 0 16\nproc 1 1 0 16\n";
    let text = format!(in alloc; "{header}{line}\n")?;
    let script = script_of(alloc, text.as_str())?;
    let Some(line) = script.lines.first() else {
        return Err(Fail::from("no line"));
    };
    match &line.act {
        Act::Call(request) => Ok((line.pid, request.clone()?)),
        Act::Wait(..) => Err(Fail::from("no call")),
    }
}

impl<B: BookName> Desk<B> {
    /// What is answered to a step: of each entry that was made the number of the pending call that it answers, or a dash,
    /// the process and its answer; then what has changed.
    pub fn answer(&mut self, step: Step) -> Result<String, Fail> {
        let made = self.ask(step)?;
        let text = match &made {
            Some(Ok(made)) => self.made_text(made)?,
            Some(Err(fault)) => format!(in self.alloc; "! {fault}")?,
            None => String::new(self.alloc),
        };
        let changes = self.changes_text()?;
        Ok(format!(in self.alloc; "{text}.{changes}")?)
    }

    /// What is made of a step.
    pub fn ask(&mut self, step: Step) -> Result<Option<Result<Made, SessionFault>>, Fail> {
        match step {
            Step::Call(line) => {
                let (pid, request) = request_of(self.alloc, line)?;
                let made = self.session.call(pid, &request);
                drop(request);
                Ok(Some(made))
            }
            Step::Pend(number, line) => {
                let (pid, request) = request_of(self.alloc, line)?;
                Ok(Some(
                    self.session.pend(Pending {
                        number,
                        pid,
                        request,
                    }),
                ))
            }
            Step::Cancel(number) => match self.session.cancel(number) {
                Ok(()) => Ok(None),
                Err(fault) => Ok(Some(Err(fault))),
            },
            Step::Order(seed) => {
                self.session.order(seed);
                Ok(None)
            }
        }
    }

    fn made_text(&self, made: &Made) -> Result<String, Fail> {
        let mut text = String::new(self.alloc);
        for (index, number) in made.answered.iter().enumerate() {
            if let Some(number) = number {
                text.push_str(format!(in self.alloc; "{number}: ")?.as_str())?;
            }
            let entries = self.session.serial().entries();
            if let Some(entry) = entries.get(made.from.saturating_add(index)) {
                text.push_str(answer_text(self.alloc, entry)?.as_str())?;
                for lead in leads(self.alloc, self.session.serial().state(), entry)? {
                    let fd = lead.fd.0;
                    let id = lead.id.number();
                    text.push_str(format!(in self.alloc; " {fd}->{id}")?.as_str())?;
                }
            }
            text.push_str("; ")?;
        }
        Ok(text)
    }

    fn changes_text(&mut self) -> Result<String, Fail> {
        let mut text = String::new(self.alloc);
        for change in self.watch.changes(self.session.serial().state())? {
            let id = change.id.number();
            let flags = change.now.flags.0;
            let bytes = change.now.bytes;
            let messages = change.now.messages;
            let one = format!(in self.alloc; " {id}={flags}/{bytes}/{messages}")?;
            text.push_str(one.as_str())?;
        }
        Ok(text)
    }
}
