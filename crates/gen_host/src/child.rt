// A generator that is a program of its own.
ghost use Rattle.std.specs.Prelude.{◌≡◌, ◌≢◌, ◌+◌, ◌<◌, ◌≤◌, min, length, take, false, is_ok, is_some, IfErr, IsErrOf};
ghost use Rattle.std.specs.Result.{IsErrAnd};
ghost use Rattle.std.specs.IoError.{error_kind};
ghost use Rattle.std.specs.declared.io.ErrorKind.TheVariants.{OutOfMemory};
ghost use Rattle.gen_host.specs.Children.{untold};
ghost use Rattle.io_world.specs.Faults.{last_count};
ghost use Rattle.io_world.specs.declared.host.HostFault.TheVariants.{Failed, Memory};

use crate::Generator;
use io_world::{FaultCount, HostFault, read_some, write_some};
use std::alloc::{AllocError, Global};
use std::io::{self, ErrorKind};
use std::process::{Child, Command, OpenProcess, Processes, Stdio};

/// A program that was started, with the pipes to it and from it.
#[derive(Drop)]
struct Running<P: OpenProcess> {
    child: Child<P>,
    input: P::Stdin,
    output: P::Stdout,
}

/// A program of its own: its standard input and output are pipes, and its standard error is ours.
/// It tells nothing of what is said.
///
/// A program that can't be started, one that closes its output or ends, and one that takes no bytes
/// since it closed its input or ended, are faults. A call waits as long as the program neither
/// answers nor ends.
#[derive(Drop)]
pub struct ChildGen<R: Processes> {
    alloc: Global,
    rt: R,
    running: Option<Running<R::Started>>,
    faults: FaultCount,
}

impl<R: Processes + Drop> ChildGen<R> {
    /// A generator that starts programs with this runtime; none runs. It takes the memory of a
    /// command from `alloc`.
    pub fn new(alloc: Global, rt: R) -> ChildGen<R>
        ensures idle { ⟦<ChildGen<R> as Generator>⟧.running result ≡ false }
        ensures count { ⟦<ChildGen<R> as Generator>⟧.faults result ≡ 0 }
    {
        ChildGen {
            alloc,
            rt,
            running: None,
            faults: FaultCount::new(),
        }
    }
}

fn command(alloc: Global, argv: &[String]) -> Result<Command, AllocError>
    requires { 0 < length argv.now }
{
    let mut command = Command::new(alloc, argv[0].as_str())?;
    for word in &argv[1..] {
        command.arg(word.as_str())?;
    }
    command.stdin(Stdio::piped());
    command.stdout(Stdio::piped());
    Ok(command)
}

/// What it means for the host that a program could not be started so: want of memory, or a fault.
fn fault_of(error: &io::Error) -> HostFault
    ensures memory { error_kind error.now ≡ OutOfMemory → result ≡ Memory }
    ensures failed { error_kind error.now ≢ OutOfMemory → result ≡ Failed }
{
    match error.kind() {
        ErrorKind::OutOfMemory => HostFault::Memory,
        _ => HostFault::Failed,
    }
}

/// Starts the command.
fn launch<R: Processes>(command: &mut Command, rt: &R) -> Result<Running<R::Started>, HostFault> {
    piped(command.spawn(rt))
}

/// What became of a program that was to be started: it runs, with its pipes. Where it has no pipes,
/// it is ended again, which is a fault. Where it could not be started, that is want of memory only
/// if the system's error is that.
fn piped<P: OpenProcess + Drop>(spawned: io::Result<Child<P>>) -> Result<Running<P>, HostFault>
    ensures memory { IfErr spawned
        (λ error. error_kind error ≡ OutOfMemory → IsErrOf result Memory) }
    ensures failed { IsErrOf result Memory
        → IsErrAnd spawned (λ error. error_kind error ≡ OutOfMemory) }
{
    let mut child = match spawned {
        Ok(child) => child,
        Err(error) => return Err(fault_of(&error)),
    };
    let (Some(input), Some(output)) = (child.stdin.take(), child.stdout.take()) else {
        let _ = child.kill();
        let _ = child.wait();
        return Err(HostFault::Failed);
    };
    Ok(Running {
        child,
        input,
        output,
    })
}

impl<R: Processes + Drop> Generator for ChildGen<R> {
    ghost faults = { λ s. s.faults };

    ghost running = { λ s. is_some s.running };

    ghost spoken = { λ s. untold };

    fn start(&mut self, argv: &[String]) -> Result<(), HostFault> {
        let Ok(mut command) = command(self.alloc, argv) else {
            return Err(HostFault::Memory);
        };
        match launch(&mut command, &self.rt) {
            Ok(running) => {
                self.running = Some(running);
                Ok(())
            }
            Err(HostFault::Memory) => Err(HostFault::Memory),
            Err(HostFault::Failed) => Err(failed(&mut self.faults)),
        }
    }

    fn send(&mut self, bytes: &[u8]) -> Result<usize, HostFault> {
        if let Some(running) = &mut self.running {
            if let Some(count) = write_some(&mut running.input, bytes) {
                return Ok(count);
            }
        }
        Err(failed(&mut self.faults))
    }

    fn receive(&mut self, room: &mut [u8]) -> Result<usize, HostFault> {
        if let Some(running) = &mut self.running {
            if let Some(count) = read_some(&mut running.output, room) {
                if count > 0 {
                    return Ok(count);
                }
            }
        }
        Err(failed(&mut self.faults))
    }

    /// It closes the pipes, and waits for the end of the program.
    fn stop(&mut self) -> Result<(), HostFault> {
        if let Some(running) = self.running.take() {
            if ended(running) {
                return Ok(());
            }
        }
        Err(failed(&mut self.faults))
    }

    fn faults(&self) -> u64 {
        self.faults.get()
    }
}

/// Counts a fault.
fn failed(faults: &mut FaultCount) -> HostFault
    ensures fault { result ≡ Failed }
    ensures count { faults.new ≡ min (faults.old + 1) last_count }
    ensures later { faults.old ≤ faults.new }
{
    faults.raise();
    HostFault::Failed
}

/// Closes the pipes, waits for the end of the program, and says whether that could be done.
fn ended<P: OpenProcess + Drop>(running: Running<P>) -> bool {
    let Running {
        mut child,
        input,
        output,
    } = running;
    drop(input);
    drop(output);
    child.wait().is_ok()
}
