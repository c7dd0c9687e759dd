//! Real children, alone and as members of a host.
ghost use Rattle.std.specs.Prelude.{◌≡◌, ◌<◌, ℕ, true, false, length, is_ok, IfOk};
ghost use Rattle.io_world.specs.Talks.{Becomes, Same};
ghost use Rattle.io_world.specs.declared.host.TheConstants.{CHILDREN};

use gen_host::{BoxHost, ChildGen, Generator, add_idle};
use io_world::{CHILDREN, Host, HostFault, hear_line, send_all};
use std::alloc::{AllocError, Global};
use std::process::Abort;
use std::test::Fail;

/// The words of a shell that runs this text.
fn shell(alloc: Global, text: &str) -> Result<Vec<String>, AllocError>
    ensures { IfOk result (λ words. 0 < length words.items) }
{
    let program = String::from_str(alloc, "sh")?;
    let option = String::from_str(alloc, "-c")?;
    let text = String::from_str(alloc, text)?;
    Ok(vec![in alloc; program, option, text]?)
}

/// Starts a generator.
fn begin<G: Generator>(rt: &impl Abort, generator: &mut G, argv: &[String])
    requires words { 0 < length argv.now }
    requires idle { G.running generator.old ≡ false }
    ensures { G.running generator.new ≡ true }
{
    let answer = generator.start(argv);
    assert!(rt; answer.is_ok());
}

/// Receives from a generator, which is to give this.
fn hear<G: Generator>(rt: &impl Abort, generator: &mut G, want: &[u8])
    requires { G.running generator.old ≡ true }
    ensures { G.running generator.new ≡ true }
{
    let mut room = [0; 64];
    let answer = generator.receive(&mut room);
    assert_eq!(rt; answer, Ok(want.len()));
    assert_eq!(rt; room.get(..want.len()), Some(want));
}

/// Receives from a generator, which is to fail.
fn miss<G: Generator>(rt: &impl Abort, generator: &mut G)
    requires { G.running generator.old ≡ true }
    ensures { G.running generator.new ≡ true }
{
    let answer = generator.receive(&mut [0; 64]);
    assert_eq!(rt; answer, Err(HostFault::Failed));
}

#[test]
fn a_program_answers_a_line(rt: HostRuntime) -> Result<(), Fail> {
    let alloc = rt.alloc();
    let argv = shell(alloc, "read x; echo yield left")?;
    let mut child = ChildGen::new(alloc, &rt);
    begin(&rt, &mut child, &argv);
    assert_eq!(rt; child.send(b"next 0 grip cup\n"), Ok(16));
    hear(&rt, &mut child, b"yield left\n");
    miss(&rt, &mut child);
    assert_eq!(rt; child.stop(), Ok(()));
    assert_eq!(rt; child.faults(), 1);
    Ok(())
}

#[test]
fn a_program_that_dies_in_its_answer_fails(rt: HostRuntime) -> Result<(), Fail> {
    let alloc = rt.alloc();
    let argv = shell(alloc, "read x; printf yie; exit 3")?;
    let mut child = ChildGen::new(alloc, &rt);
    begin(&rt, &mut child, &argv);
    assert_eq!(rt; child.send(b"next 0 grip cup\n"), Ok(16));
    hear(&rt, &mut child, b"yie");
    miss(&rt, &mut child);
    assert_eq!(rt; child.stop(), Ok(()));
    Ok(())
}

#[test]
fn a_program_that_is_not_there_does_not_start(rt: HostRuntime) -> Result<(), Fail> {
    let alloc = rt.alloc();
    let words = vec![in alloc; String::from_str(alloc, "/no/such/program")?]?;
    let mut child = ChildGen::new(alloc, &rt);
    assert_eq!(rt; child.start(&words), Err(HostFault::Failed));
    assert_eq!(rt; child.faults(), 1);
    Ok(())
}

#[test]
fn a_write_to_a_program_that_is_gone_fails(rt: HostRuntime) -> Result<(), Fail> {
    let alloc = rt.alloc();
    let argv = shell(alloc, "exec <&-; exit 0")?;
    let mut child = ChildGen::new(alloc, &rt);
    // The program closes its input first: no program reads it once its output has ended.
    begin(&rt, &mut child, &argv);
    miss(&rt, &mut child);
    assert_eq!(rt; child.send(b"next 0 grip cup\n"), Err(HostFault::Failed));
    assert_eq!(rt; child.faults(), 2);
    assert_eq!(rt; child.stop(), Ok(()));
    Ok(())
}

/// Starts a child of a host.
fn start<H: Host>(rt: &impl Abort, host: &mut H, child: u8, argv: &[String])
    requires number { child < CHILDREN }
    requires words { 0 < length argv.now }
    requires idle { H.running host.old child ≡ false }
    ensures { Becomes child true (H.running host.old) (H.running host.new) }
{
    let answer = host.start(child, argv);
    assert!(rt; answer.is_ok());
}

/// Writes a line to a child of a host, and hears the same.
fn converse<H: Host>(rt: &impl Abort, host: &mut H, child: u8, line: &[u8])
    requires number { child < CHILDREN }
    requires runs { H.running host.old child ≡ true }
    ensures { Same (H.running host.old) (H.running host.new) }
{
    let mut room = [0; 64];
    assert_eq!(rt; send_all(host, child, line), Ok(()));
    assert_eq!(rt; hear_line(host, child, &mut room, 0), Ok(line.len()));
    assert_eq!(rt; room.get(..line.len()), Some(line));
}

/// Starts the first and the last child of a host by these words, which are to answer each line by
/// itself, talks with both by turns, and stops them.
fn keep_apart<H: Host>(rt: &impl Abort, host: &mut H, argv: &[String])
    requires words { 0 < length argv.now }
    requires idle { (k : ℕ) → H.running host.old k ≡ false }
{
    start(rt, host, 0, argv);
    start(rt, host, 16, argv);
    converse(rt, host, 0, b"to 0\n");
    converse(rt, host, 16, b"to 16\n");
    converse(rt, host, 0, b"again\n");
    assert_eq!(rt; host.stop(0), Ok(()));
    converse(rt, host, 16, b"still\n");
    assert_eq!(rt; host.stop(16), Ok(()));
}

#[test]
fn children_of_a_host_are_kept_apart(rt: HostRuntime) -> Result<(), Fail> {
    let alloc = rt.alloc();
    let mut members = Vec::new(alloc);
    for _ in 0..CHILDREN {
        add_idle(
            &mut members,
            Box::new(alloc, ChildGen::new(alloc, rt.clone()?))?,
        )?;
    }
    assert_eq!(rt; members.len(), CHILDREN);
    let mut host = BoxHost::new(members);
    let cat = shell(alloc, "exec cat")?;
    keep_apart(&rt, &mut host, &cat);
    assert_eq!(rt; host.faults(), 0);
    Ok(())
}

#[test]
fn a_host_adds_up_the_faults_of_its_children(rt: HostRuntime) -> Result<(), Fail> {
    let alloc = rt.alloc();
    let mut members = Vec::new(alloc);
    for _ in 0..CHILDREN {
        add_idle(
            &mut members,
            Box::new(alloc, ChildGen::new(alloc, rt.clone()?))?,
        )?;
    }
    assert_eq!(rt; members.len(), CHILDREN);
    let mut host = BoxHost::new(members);
    let words = vec![in alloc; String::from_str(alloc, "/no/such/program")?]?;
    assert_eq!(rt; host.start(3, &words), Err(HostFault::Failed));
    assert_eq!(rt; host.start(16, &words), Err(HostFault::Failed));
    assert_eq!(rt; host.start(3, &words), Err(HostFault::Failed));
    assert_eq!(rt; host.faults(), 3);
    Ok(())
}
