//! Who came to which descriptor through whom.

use crate::json::print_json;
use crate::wording::print_chain_words;
use std::alloc::Global;
use ux_audit::{Audit, Chain};
use ux_command::CommandFault;
use ux_json::{audit_value, held_value};
use ux_syntax::ScriptFault;
use ux_types::{Entry, Fd, Pid};

/// In which form an audit is printed.
#[derive(Clone, Copy)]
pub enum AuditForm {
    /// As a line of fixed words for each descriptor.
    Lines,
    /// In words for people.
    Words,
    /// As JSON.
    Json,
}

/// Prints each descriptor that is open after these calls, and the chain of holdings through which its process came to
/// it; and last, how many descriptors there are. Each chain is checked before it is printed.
pub fn print_audit<R: Print + AllocGlobal>(
    rt: &R,
    entries: &[Entry],
    form: AuditForm,
) -> Result<(), CommandFault> {
    let alloc: Global = rt.alloc();
    let audit = Audit::new(alloc, entries)?;
    let holdings = audit.holdings(alloc)?;
    for (pid, fd) in &holdings {
        let chain = chain_of(alloc, &audit, *pid, *fd)?;
        print_chain(rt, entries, &chain, *pid, *fd, form)?;
    }
    if let AuditForm::Json = form {
        return print_json(rt, &audit_value(alloc, holdings.len())?);
    }
    println!(rt; "audit ok {}", holdings.len()).map_err(|_| ScriptFault::Writing)?;
    Ok(())
}

/// The chain of holdings through which a process came to a descriptor, which was checked.
fn chain_of(alloc: Global, audit: &Audit<'_>, pid: Pid, fd: Fd) -> Result<Chain, CommandFault> {
    let Some(chain) = audit.pedigree(alloc, pid, fd)? else {
        return Err(CommandFault::Audit(pid, fd));
    };
    if !audit.check_pedigree(alloc, &chain, pid, fd)? {
        return Err(CommandFault::Audit(pid, fd));
    }
    Ok(chain)
}

/// Prints one descriptor and its chain.
fn print_chain<R: Print + AllocGlobal>(
    rt: &R,
    entries: &[Entry],
    chain: &Chain,
    pid: Pid,
    fd: Fd,
    form: AuditForm,
) -> Result<(), CommandFault> {
    match form {
        AuditForm::Json => print_json(rt, &held_value(rt.alloc(), pid, fd, chain)?),
        AuditForm::Words => print_chain_words(rt, entries, chain, pid, fd),
        AuditForm::Lines => {
            println!(rt; "held {} {} = {chain}", pid.0, fd.0).map_err(|_| ScriptFault::Writing)?;
            Ok(())
        }
    }
}
