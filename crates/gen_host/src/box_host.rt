// A host whose children are boxed generators.
ghost use Rattle.std.proofs.Common.{lit≤};
ghost use Rattle.std.specs.Prelude.{◌≡◌, ◌*◌, ◌<◌, ◌≤◌, ℕ, ⊤, length, take, true, false, None, is_ok, IfOk};
ghost use Rattle.gen_host.specs.Calls.{CallsMember, CallsOne};
ghost use Rattle.gen_host.specs.Members.{total, at_members, all_idle};
ghost use Rattle.io_world.specs.Faults.{last_count};
ghost use Rattle.io_world.specs.Talks.{silence, wrote_more, heard_more};
ghost use Rattle.io_world.specs.declared.host.TheConstants.{CHILDREN};

use crate::Generator;
use io_world::{CHILDREN, FaultCount, Host, HostFault};

type Member = Box<dyn Generator>;

fn start(member: &mut Member, argv: &[String]) -> Result<(), HostFault>
    requires words { 0 < length argv.now }
    requires idle { running member.old ≡ false }
    ensures { CallsOne (λ b. running b) (λ b. spoken b) (λ b. faults b) (is_ok result)
        (λ _ talk. silence) member.old member.new result }
{
    member.start(argv)
}

fn send(member: &mut Member, bytes: &[u8]) -> Result<usize, HostFault>
    requires some { 0 < length bytes.now }
    requires runs { running member.old ≡ true }
    ensures count { IfOk result (λ n. (0 < n) × (n ≤ length bytes.now)) }
    ensures calls { CallsOne (λ b. running b) (λ b. spoken b) (λ b. faults b) true
        (λ n. wrote_more (take n bytes.now)) member.old member.new result }
{
    member.send(bytes)
}

fn receive(member: &mut Member, room: &mut [u8]) -> Result<usize, HostFault>
    requires some { 0 < length room.old }
    requires runs { running member.old ≡ true }
    ensures count { IfOk result (λ n. (0 < n) × (n ≤ length room.new)) }
    ensures calls { CallsOne (λ b. running b) (λ b. spoken b) (λ b. faults b) true
        (λ n. heard_more (take n room.new)) member.old member.new result }
{
    member.receive(room)
}

fn stop(member: &mut Member) -> Result<(), HostFault>
    requires runs { running member.old ≡ true }
    ensures { CallsOne (λ b. running b) (λ b. spoken b) (λ b. faults b) false (λ _ talk. talk)
        member.old member.new result }
{
    member.stop()
}

fn faults(member: &Member) -> u64
    ensures count { result ≡ faults member.now }
    ensures bound { result ≤ last_count }
{
    member.faults()
}

/// A host of 17 boxed generators: the child of each number is the generator at that place.
///
/// A child runs exactly where its generator runs, and what is said with it is told where its
/// generator tells it. The count of faults is the sum of the generators' counts while each is below
/// `2^48 - 1`, and else 17 times that number, which is its last value. It tells no log.
#[derive(Drop)]
pub struct BoxHost {
    members: Vec<Member>,
    ghost count: { length members.items ≡ CHILDREN },
}

impl BoxHost {
    /// The host of these generators, of which there are 17.
    pub fn new(members: Vec<Member>) -> BoxHost
        requires { length members.items ≡ CHILDREN }
        ensures count { ⟦<BoxHost as Host>⟧.faults result
            ≡ total last_count (λ b. faults b) members.items }
        ensures running { (k : ℕ) → ⟦<BoxHost as Host>⟧.running result k
            ≡ at_members false (λ b. running b) members.items k }
        ensures spoken { (k : ℕ) → ⟦<BoxHost as Host>⟧.spoken result k
            ≡ at_members None (λ b. spoken b) members.items k }
        ensures idle { all_idle (λ b. running b) members.items ≡ true → (k : ℕ)
            → ⟦<BoxHost as Host>⟧.running result k ≡ false }
    {
        BoxHost { members }
    }
}

impl Host for BoxHost {
    ghost faults = { λ s.
        total last_count (λ b. (Generator-box b).faults b.value) s.members.items };

    ghost last = { CHILDREN * last_count };

    ghost running = { λ s.
        at_members false (λ b. (Generator-box b).running b.value) s.members.items };

    ghost spoken = { λ s.
        at_members None (λ b. (Generator-box b).spoken b.value) s.members.items };

    ghost log = { λ s. None };

    ghost spells = { λ host child runs. tt };

    ghost high = { lit≤ tt };

    ghost leads = { λ old new memory. ⊤ };

    ghost stays = { λ h. tt };

    ghost chains = { λ a b c m first second. tt };

    ghost ends = { λ a b c m first second. tt };

    fn start(&mut self, child: u8, argv: &[String]) -> Result<(), HostFault>
        requires number { child < CHILDREN }
        requires words { 0 < length argv.now }
        requires idle { at_members false (λ b. running b) self.old.members.items child ≡ false }
        ensures calls { CallsMember (λ b. running b) (λ b. spoken b) (λ b. faults b) child (is_ok result)
            (λ _ talk. silence) self.old.members.items self.new.members.items result }
    {
        start(&mut self.members[child as usize], argv)
    }

    fn write(&mut self, child: u8, bytes: &[u8]) -> Result<usize, HostFault>
        requires number { child < CHILDREN }
        requires some { 0 < length bytes.now }
        requires runs { at_members false (λ b. running b) self.old.members.items child ≡ true }
        ensures count { IfOk result (λ n. (0 < n) × (n ≤ length bytes.now)) }
        ensures calls { CallsMember (λ b. running b) (λ b. spoken b) (λ b. faults b) child true
            (λ n. wrote_more (take n bytes.now)) self.old.members.items self.new.members.items result }
    {
        send(&mut self.members[child as usize], bytes)
    }

    fn read(&mut self, child: u8, room: &mut [u8]) -> Result<usize, HostFault>
        requires number { child < CHILDREN }
        requires some { 0 < length room.old }
        requires runs { at_members false (λ b. running b) self.old.members.items child ≡ true }
        ensures count { IfOk result (λ n. (0 < n) × (n ≤ length room.new)) }
        ensures calls { CallsMember (λ b. running b) (λ b. spoken b) (λ b. faults b) child true
            (λ n. heard_more (take n room.new)) self.old.members.items self.new.members.items result }
    {
        receive(&mut self.members[child as usize], room)
    }

    fn stop(&mut self, child: u8) -> Result<(), HostFault>
        requires number { child < CHILDREN }
        requires runs { at_members false (λ b. running b) self.old.members.items child ≡ true }
        ensures calls { CallsMember (λ b. running b) (λ b. spoken b) (λ b. faults b) child false
            (λ _ talk. talk) self.old.members.items self.new.members.items result }
    {
        stop(&mut self.members[child as usize])
    }

    fn faults(&self) -> u64 {
        let mut sum = 0;
        for member in &self.members {
            let count = faults(member);
            if count >= FaultCount::LAST {
                return CHILDREN as u64 * FaultCount::LAST;
            }
            sum += count;
        }
        sum
    }
}
