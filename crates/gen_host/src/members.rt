// Boxed generators of which none runs.
ghost use Rattle.std.specs.Prelude.{◌≡◌, [], ◌∷◌, ◌++◌, true, false, OnOk, OnErr};
ghost use Rattle.gen_host.specs.Members.{all_idle};

use crate::Generator;
use std::alloc::AllocError;

/// Adds a generator that doesn't run behind others that don't run. Where memory is wanting they
/// stay as they were.
pub fn add_idle(
    members: &mut Vec<Box<dyn Generator>>,
    member: Box<dyn Generator>,
) -> Result<(), AllocError>
    requires idle { running member ≡ false }
    requires all { all_idle (λ b. running b) members.old.items ≡ true }
    ensures all { all_idle (λ b. running b) members.new.items ≡ true }
    ensures added { OnOk result (members.new.items ≡ members.old.items ++ member ∷ []) }
    ensures kept { OnErr result (members.new.items ≡ members.old.items) }
{
    members.push(member)?;
    Ok(())
}
