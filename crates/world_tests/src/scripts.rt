//! Children that play scripts, and children that answer by a function.
ghost use Rattle.std.specs.Prelude.{◌≡◌, ◌<◌, true, false, length, IfOk};
ghost use Rattle.io_world.specs.Talks.{Becomes, Same};
ghost use Rattle.io_world.specs.declared.host.TheConstants.{CHILDREN};

use io_world::{AnswerBy, Host, HostFault, Script, ScriptHost, SureHost, hear_line, send_all};
use std::alloc::{AllocError, Global};
use std::process::Abort;
use std::test::Fail;

/// Starts a child.
fn begin<H: Host>(rt: &impl Abort, host: &mut H, child: u8, argv: &[String])
    requires number { child < CHILDREN }
    requires words { 0 < length argv.now }
    requires idle { H.running host.old child ≡ false }
    ensures { Becomes child true (H.running host.old) (H.running host.new) }
{
    let answer = host.start(child, argv);
    assert!(rt; answer.is_ok());
}

/// Writes to a child, which is to answer this.
fn tell<H: Host>(
    rt: &impl Abort,
    host: &mut H,
    child: u8,
    bytes: &[u8],
    want: Result<usize, HostFault>,
)
    requires number { child < CHILDREN }
    requires some { 0 < length bytes.now }
    requires runs { H.running host.old child ≡ true }
    ensures { Same (H.running host.old) (H.running host.new) }
{
    let answer = host.write(child, bytes);
    assert_eq!(rt; answer, want);
}

/// Reads from a child, which is to give this.
fn hear<H: Host>(rt: &impl Abort, host: &mut H, child: u8, want: &[u8])
    requires number { child < CHILDREN }
    requires runs { H.running host.old child ≡ true }
    ensures { Same (H.running host.old) (H.running host.new) }
{
    let mut room = [0; 64];
    let answer = host.read(child, &mut room);
    assert_eq!(rt; answer, Ok(want.len()));
    assert_eq!(rt; room.get(..want.len()), Some(want));
}

/// Reads from a child, which is to fail.
fn miss<H: Host>(rt: &impl Abort, host: &mut H, child: u8)
    requires number { child < CHILDREN }
    requires runs { H.running host.old child ≡ true }
    ensures { Same (H.running host.old) (H.running host.new) }
{
    let answer = host.read(child, &mut [0; 64]);
    assert_eq!(rt; answer, Err(HostFault::Failed));
}

fn words(alloc: Global) -> Result<Vec<String>, AllocError>
    ensures { IfOk result (λ words. 0 < length words.items) }
{
    Ok(vec![in alloc; String::from_str(alloc, "prog")?]?)
}

fn script(alloc: Global, bytes: &[u8], cuts: &[usize]) -> Result<Script, AllocError> {
    let cuts = Vec::from_slice(alloc, cuts)?;
    Ok(Script {
        bytes: Vec::from_slice(alloc, bytes)?,
        cuts,
        needs: Vec::new(alloc),
    })
}

#[test]
fn a_script_is_given_in_pieces_and_then_fails(rt: HostRuntime) -> Result<(), Fail> {
    let alloc = rt.alloc();
    let argv = words(alloc)?;
    let fails = vec![in alloc; 4]?;
    let scripts = vec![in alloc; script(alloc, b"yield left\n", &[3, 0])?]?;
    let mut host = ScriptHost::new(alloc, scripts, fails);
    begin(&rt, &mut host, 0, &argv);
    tell(&rt, &mut host, 0, b"next 0 grip cup\n", Ok(16));
    hear(&rt, &mut host, 0, b"yie");
    hear(&rt, &mut host, 0, b"ld left\n");
    tell(&rt, &mut host, 0, b"next", Err(HostFault::Failed));
    miss(&rt, &mut host, 0);
    assert_eq!(rt; host.faults(), 2);
    Ok(())
}

#[test]
fn a_start_plays_the_script_from_its_beginning(rt: HostRuntime) -> Result<(), Fail> {
    let alloc = rt.alloc();
    let argv = words(alloc)?;
    let scripts = vec![in alloc; script(alloc, b"end\n", &[3])?]?;
    let mut host = ScriptHost::new(alloc, scripts, Vec::new(alloc));
    begin(&rt, &mut host, 0, &argv);
    hear(&rt, &mut host, 0, b"end");
    assert_eq!(rt; host.stop(0), Ok(()));
    begin(&rt, &mut host, 0, &argv);
    hear(&rt, &mut host, 0, b"end");
    Ok(())
}

#[test]
fn each_start_plays_the_next_script(rt: HostRuntime) -> Result<(), Fail> {
    let alloc = rt.alloc();
    let argv = words(alloc)?;
    let first = script(alloc, b"end\n", &[])?;
    let second = script(alloc, b"yield left\n", &[])?;
    let scripts = vec![in alloc; vec![in alloc; first, second]?]?;
    let mut host = ScriptHost::again(alloc, scripts, Vec::new(alloc));
    begin(&rt, &mut host, 0, &argv);
    hear(&rt, &mut host, 0, b"end\n");
    assert_eq!(rt; host.stop(0), Ok(()));
    begin(&rt, &mut host, 0, &argv);
    hear(&rt, &mut host, 0, b"yield left\n");
    assert_eq!(rt; host.stop(0), Ok(()));
    assert_eq!(rt; host.start(0, &argv), Err(HostFault::Failed));
    assert_eq!(rt; host.faults(), 1);
    Ok(())
}

#[test]
fn a_child_without_a_script_does_not_start(rt: HostRuntime) -> Result<(), Fail> {
    let alloc = rt.alloc();
    let argv = words(alloc)?;
    let mut host = ScriptHost::new(alloc, Vec::new(alloc), Vec::new(alloc));
    assert_eq!(rt; host.start(3, &argv), Err(HostFault::Failed));
    assert_eq!(rt; host.faults(), 1);
    Ok(())
}

/// A script whose bytes before 8 and behind are held back until lines were written.
fn needy_script(alloc: Global) -> Result<Script, AllocError> {
    let needs = vec![in alloc; (0, 1, 1), (8, 0, 2)]?;
    Ok(Script {
        bytes: Vec::from_slice(alloc, b"yield a\nend\n")?,
        cuts: Vec::new(alloc),
        needs,
    })
}

fn needy_scripts(alloc: Global) -> Result<Vec<Script>, AllocError> {
    let first = needy_script(alloc)?;
    Ok(vec![in alloc; first, script(alloc, b"end\n", &[])?]?)
}

#[test]
fn needs_hold_bytes_back(rt: HostRuntime) -> Result<(), Fail> {
    let alloc = rt.alloc();
    let argv = words(alloc)?;
    let mut host = ScriptHost::new(alloc, needy_scripts(alloc)?, Vec::new(alloc));
    begin(&rt, &mut host, 0, &argv);
    begin(&rt, &mut host, 1, &argv);
    tell(&rt, &mut host, 0, b"one\n", Ok(4));
    miss(&rt, &mut host, 0);
    tell(&rt, &mut host, 1, b"one\n", Ok(4));
    hear(&rt, &mut host, 0, b"yield a\n");
    miss(&rt, &mut host, 0);
    tell(&rt, &mut host, 0, b"two\n", Ok(4));
    hear(&rt, &mut host, 0, b"end\n");
    assert_eq!(rt; host.faults(), 2);
    Ok(())
}

/// Hears a line in 10 bytes, and the next one in no more than a room of three has.
fn hear_lines<H: Host>(rt: &impl Abort, host: &mut H)
    requires { H.running host.old 0 ≡ true }
{
    let mut room = [0; 16];
    assert_eq!(rt; hear_line(host, 0, &mut room, 0), Ok(10));
    assert_eq!(rt; &room[..10], b"yield a b\n".as_slice());
    assert_eq!(rt; hear_line(host, 0, &mut [0; 3], 0), Ok(3));
    assert_eq!(rt; hear_line(host, 0, &mut room, 1), Err(HostFault::Failed));
}

#[test]
fn a_line_is_heard_over_several_reads(rt: HostRuntime) -> Result<(), Fail> {
    let alloc = rt.alloc();
    let argv = words(alloc)?;
    let scripts = vec![in alloc; script(alloc, b"yield a b\nend", &[2, 3, 5, 3])?]?;
    let mut host = ScriptHost::new(alloc, scripts, Vec::new(alloc));
    begin(&rt, &mut host, 0, &argv);
    assert_eq!(rt; send_all(&mut host, 0, b"next 0 grip cup\n"), Ok(()));
    hear_lines(&rt, &mut host);
    Ok(())
}

/// Answers each request with the request itself.
#[derive(Drop)]
struct Echo;

impl AnswerBy for Echo {
    ghost answers = { λ by request. request };

    fn answer(&self, alloc: Global, request: &[u8]) -> Result<Vec<u8>, AllocError> {
        Vec::from_slice(alloc, request)
    }
}

#[test]
fn requests_are_answered_line_by_line(rt: HostRuntime) -> Result<(), Fail> {
    let alloc = rt.alloc();
    let argv = words(alloc)?;
    let mut host = SureHost::new(alloc, Echo);
    begin(&rt, &mut host, 5, &argv);
    tell(&rt, &mut host, 5, b"a\nbc", Ok(4));
    hear(&rt, &mut host, 5, b"a\n");
    hear(&rt, &mut host, 5, b"end\n");
    tell(&rt, &mut host, 5, b"\n\n", Ok(2));
    hear(&rt, &mut host, 5, b"bc\n\n");
    assert_eq!(rt; host.stop(5), Ok(()));
    assert_eq!(rt; host.faults(), 0);
    Ok(())
}
